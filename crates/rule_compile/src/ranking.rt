// The order of the conditions in a rule's program: of words first those that take few instructions and fail most
// messages, last the kind, which fails hardly any, since rules are asked about signals alone; and then bytes, from the
// highest rank on.
ghost use Rattle.std.specs.Prelude.{◌≡◌, ◌<◌, ◌^◌, sum_by, filter, OnOk, IfOk};
ghost use Rattle.match_rule.specs.RuleTree.{condition_weight};
ghost use Rattle.jump_islands.specs.Source.{AreWellMade};
ghost use Rattle.rule_compile.specs.Tested.{is_tested, tested_of};
ghost use Rattle.rule_compile.specs.RuleCode.{whole_rank, other_rank, rank_of, ranks, part_code, of_rank, rising, falling, destination_fits, rule_code};

use crate::condition::Part;
use crate::piece::Code;
use crate::rest::Tested;
use bpf_code::Test;
use jump_islands::SourceProgram;
use match_rule::{Condition, Field, Relation, Source};
use message_view::TextField;
use std::alloc::{AllocError, Global};
use summary::text_place;

/// How many ranks there are.
const RANKS: u8 = 8;

/// The rank of a text that is tested for equality.
fn whole_rank(source: Source) -> u8
    ensures { result ≡ whole_rank source }
{
    match source {
        Source::Header(Field::Member) => 0,
        Source::Header(Field::Interface) => 2,
        Source::Header(Field::Path | Field::Destination) => 3,
        Source::Arg(_) => 5,
    }
}

/// The rank of a text that is tested in another way.
fn other_rank(source: Source) -> u8
    ensures { result ≡ other_rank source }
{
    match source {
        Source::Header(_) => 4,
        Source::Arg(_) => 6,
    }
}

/// The rank of a condition. Conditions of lower ranks are tested first.
fn rank_of(condition: &Condition) -> u8
    ensures { result ≡ rank_of condition.now }
{
    match condition {
        Condition::Kind(_) => 7,
        Condition::Sender(_) => 1,
        Condition::Compares(source, relation, _) => match relation {
            Relation::Equal => whole_rank(*source),
            Relation::PathNamespace | Relation::NameNamespace | Relation::NestedPath => {
                other_rank(*source)
            }
        },
    }
}

impl Code {
    /// A part of the conditions of one rank that are tested, in the order of the rule.
    fn of_rank(
        &mut self,
        part: Part,
        slot: u16,
        rank: u8,
        conditions: &[Condition],
        tested: Tested<'_>,
    ) -> Result<(), AllocError>
        requires { sum_by condition_weight conditions.now < 2 ^ 32 }
        ensures { OnOk result (self.new ≡ of_rank (part_code part slot) rank (filter (is_tested tested.entry) conditions.now) self.old) }
    {
        for place in (0..conditions.len()).rev() {
            let condition = &conditions[place];
            if rank_of(condition) == rank && tested.has(condition) {
                self.condition(part, slot, condition)?;
            }
        }
        Ok(())
    }

    /// What words tell of the conditions that are tested, from the lowest rank on.
    fn all_words(
        &mut self,
        slot: u16,
        conditions: &[Condition],
        tested: Tested<'_>,
    ) -> Result<(), AllocError>
        requires { sum_by condition_weight conditions.now < 2 ^ 32 }
        ensures { OnOk result (self.new ≡ rising (part_code Part.Words slot) ranks (filter (is_tested tested.entry) conditions.now) self.old) }
    {
        for rank in (0..RANKS).rev() {
            self.of_rank(Part::Words, slot, rank, conditions, tested)?;
        }
        Ok(())
    }

    /// The bytes of the texts of the conditions that are tested, from the highest rank on.
    fn all_bytes(
        &mut self,
        slot: u16,
        conditions: &[Condition],
        tested: Tested<'_>,
    ) -> Result<(), AllocError>
        requires { sum_by condition_weight conditions.now < 2 ^ 32 }
        ensures { OnOk result (self.new ≡ falling (part_code Part.Bytes slot) ranks (filter (is_tested tested.entry) conditions.now) self.old) }
    {
        for rank in 0..RANKS {
            self.of_rank(Part::Bytes, slot, rank, conditions, tested)?;
        }
        Ok(())
    }

    /// A message with a destination is offered to a rule that eavesdrops alone.
    fn destination_fits(&mut self, eavesdrops: bool) -> Result<(), AllocError>
        ensures { OnOk result (self.new ≡ destination_fits eavesdrops self.old) }
    {
        if !eavesdrops {
            self.want(Test::Equal, 0)?;
            self.image_word(u32::from(text_place(TextField::Destination)))?;
        }
        Ok(())
    }
}

/// The program of the conditions that are tested, before it is lowered: its jumps may go over any number of
/// instructions.
pub(crate) fn rule_code(
    alloc: Global,
    slot: u16,
    conditions: &[Condition],
    eavesdrops: bool,
    tested: Tested<'_>,
) -> Result<SourceProgram, AllocError>
    requires { sum_by condition_weight conditions.now < 2 ^ 32 }
    ensures value { IfOk result (λ code. code ≡ rule_code slot (tested_of tested.entry (record { conditions = conditions.now; eavesdrops = eavesdrops }))) }
    ensures made { IfOk result AreWellMade }
{
    let mut code = Code::verdicts(alloc)?;
    code.destination_fits(tested.eavesdrops(eavesdrops))?;
    code.all_bytes(slot, conditions, tested)?;
    code.all_words(slot, conditions, tested)?;
    Ok(code.finish())
}
