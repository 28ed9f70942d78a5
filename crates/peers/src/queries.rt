// The calls that only ask. What is asked about names is found and answered under the lock of the bus, at the place of what is
// published: so no answer comes before the announcement of what it tells, nor after that of a later change.

ghost use Rattle.std.specs.Prelude.{◌≡◌, ◌++◌, ◌∷◌, map, IfOk, MatchResult};
ghost use Rattle.signature.specs.Name.{bus_name};
ghost use Rattle.router.specs.Connections.{numbers_of};
ghost use Rattle.router.specs.History.{after};
ghost use Rattle.router.specs.Names.{AreNames};
ghost use Rattle.unique_name.specs.UniqueNames.{unique_name};
ghost use Rattle.peers.specs.Answers.{IsPutAt, UnlessShut};
ghost use Rattle.peers.specs.LentTexts.{lent_texts};
ghost use Rattle.peers.specs.Asked.{HasLooked, queue_in};
ghost use Rattle.peers.specs.Passing.{HasSeenMore, with_pass};
ghost use Rattle.peers.specs.Queries.{AnswersOwner, NamesOwner, TellsWhetherOwned, TellsOfOwned, AnswersFound, AreAllNames, AreQueuedFor, RepliesFound, RepliesTextsBy, CannotList, queue_found};
ghost use Rattle.peers.specs.Queues.{IsQueueOf, texts_in};

use crate::context::Context;
use crate::error::AnswerError;
use crate::identity::BUS_NAME;
use crate::owner::{AskedName, Owner};
use crate::peer::Peer;
use crate::refused::Refused;
use crate::request::Request;
use bus_messages::{Body, ErrorName, UniqueName};
use owners::WellKnown;
use router::{BusBrand, Control, Mailbox, Standing};
use std::alloc::{AllocError, Global};
use std::sync::Wait;

impl<B: BusBrand, M: Mailbox> Peer<B, M> {
    pub(crate) fn get_name_owner<W: Wait, R: Wait + Drop>(
        &mut self,
        context: &Context<'_, B, M, W, R>,
        request: Request,
        name: &str,
    ) -> Result<(), AnswerError>
        ensures row { AnswersOwner M.outbox_of name.now (NamesOwner request) self.old result self.new }
        ensures error { UnlessShut request.wants_answer result self.new }
    {
        let mut guard = context.bus.control(context.rt);
        let control = &mut *guard;
        match self.owner_named(control, name) {
            Ok(Some(owner)) => self.answer_owner(context, control, request, owner),
            Ok(None) => self.refuse_placed(
                context,
                control,
                request,
                Refused::Error(ErrorName::NameHasNoOwner),
            ),
            Err(why) => self.refuse_placed(context, control, request, why),
        }
    }

    fn answer_owner<W: Wait, R: Wait + Drop>(
        &mut self,
        context: &Context<'_, B, M, W, R>,
        control: &mut Control<B, M, R>,
        request: Request,
        owner: Owner,
    ) -> Result<(), AnswerError>
        ensures row { NamesOwner request (IsPutAt Standing.State M.outbox_of control.old.history) (Ok (Some owner)) self.old result self.new }
        ensures error { UnlessShut request.wants_answer result self.new }
    {
        match owner {
            Owner::Bus => self.answer_placed(context, control, request, Body::Text(BUS_NAME)),
            Owner::Connection(number) => {
                let owner = UniqueName::new(number);
                self.answer_placed(context, control, request, Body::Text(owner.as_str()))
            }
        }
    }

    pub(crate) fn name_has_owner<W: Wait, R: Wait + Drop>(
        &mut self,
        context: &Context<'_, B, M, W, R>,
        request: Request,
        name: &str,
    ) -> Result<(), AnswerError>
        ensures row { AnswersOwner M.outbox_of name.now (TellsWhetherOwned request) self.old result self.new }
        ensures error { UnlessShut request.wants_answer result self.new }
    {
        let mut guard = context.bus.control(context.rt);
        let control = &mut *guard;
        match self.owner_named(control, name) {
            Ok(owner) => {
                self.answer_placed(context, control, request, Body::Truth(owner.is_some()))
            }
            Err(Refused::Error(ErrorName::InvalidArgs)) => {
                self.answer_placed(context, control, request, Body::Truth(false))
            }
            Err(why) => self.refuse_placed(context, control, request, why),
        }
    }

    /// Answers a call about a name that has to have an owner: `found` where it has one, else the error `missing`.
    pub(crate) fn answer_of_owned<W: Wait, R: Wait + Drop>(
        &mut self,
        context: &Context<'_, B, M, W, R>,
        request: Request,
        name: &str,
        found: Result<Body<'_>, ErrorName>,
        missing: ErrorName,
    ) -> Result<(), AnswerError>
        ensures row { AnswersOwner M.outbox_of name.now (TellsOfOwned request found.entry missing) self.old result self.new }
        ensures error { UnlessShut request.wants_answer result self.new }
    {
        let mut guard = context.bus.control(context.rt);
        let control = &mut *guard;
        let why = match (self.owner_named(control, name), found) {
            (Ok(Some(_)), Ok(body)) => return self.answer_placed(context, control, request, body),
            (Ok(Some(_)), Err(error)) => Refused::Error(error),
            (Ok(None), _) => Refused::Error(missing),
            (Err(why), _) => why,
        };
        self.refuse_placed(context, control, request, why)
    }

    pub(crate) fn list_names<W: Wait, R: Wait + Drop>(
        &mut self,
        context: &Context<'_, B, M, W, R>,
        request: Request,
    ) -> Result<(), AnswerError>
        ensures row { AnswersFound M.outbox_of AreAllNames request self.old result self.new }
        ensures error { UnlessShut request.wants_answer result self.new }
    {
        let mut guard = context.bus.control(context.rt);
        let control = &mut *guard;
        match self.all_names(context.alloc, control) {
            Ok((unique, names)) => self.answer_names(
                context,
                control,
                request,
                unique.as_slice(),
                names.as_slice(),
            ),
            Err(why) => self.refuse_placed(context, control, request, why),
        }
    }

    // The unique names and the well-known ones.
    fn all_names<R: Wait + Drop>(
        &mut self,
        alloc: Global,
        control: &Control<B, M, R>,
    ) -> Result<(Vec<UniqueName>, Vec<WellKnown>), Refused>
        ensures found { MatchResult result
            (λ all. (all.0.items ≡ numbers_of (after self.new.pass.seen).connections) × AreNames (after self.new.pass.seen).registrations.claims all.1.items)
            (λ why. CannotList why) }
        ensures seen { MatchResult result (λ _. self.new.pass.seen ≡ control.now.history) (λ why. HasLooked why control.now.history self.new.pass) }
        ensures later { HasSeenMore self.old.pass self.new.pass }
        ensures same { self.new ≡ with_pass self.old self.new.pass }
    {
        control.tell(&mut self.pass)?;
        let numbers = control.numbers();
        let unique = unique_names(alloc, numbers.as_slice())?;
        Ok((unique, control.names(alloc)?))
    }

    // The name of the bus, the unique names, the well-known ones.
    fn answer_names<W: Wait, R: Wait + Drop>(
        &mut self,
        context: &Context<'_, B, M, W, R>,
        control: &mut Control<B, M, R>,
        request: Request,
        unique: &[UniqueName],
        names: &[WellKnown],
    ) -> Result<(), AnswerError>
        ensures row { RepliesTextsBy (IsPutAt Standing.State M.outbox_of control.old.history) request ((bus_name ∷ map unique_name unique.now) ++ names.now) self.old result self.new }
        ensures error { UnlessShut request.wants_answer result self.new }
    {
        match all_name_texts(context.alloc, unique, names) {
            Ok(texts) => self.answer_texts_placed(context, control, request, texts.as_slice()),
            Err(_) => {
                self.refuse_placed(
                    context,
                    control,
                    request,
                    Refused::Error(ErrorName::NoMemory),
                )
            }
        }
    }

    pub(crate) fn list_queued_owners<W: Wait, R: Wait + Drop>(
        &mut self,
        context: &Context<'_, B, M, W, R>,
        request: Request,
        name: &str,
    ) -> Result<(), AnswerError>
        ensures row { AnswersFound M.outbox_of (AreQueuedFor name.now) request self.old result self.new }
        ensures error { UnlessShut request.wants_answer result self.new }
    {
        let mut guard = context.bus.control(context.rt);
        let control = &mut *guard;
        match self.queue_named(context.alloc, control, name) {
            Ok(queue) => self.answer_queue(context, control, request, &queue),
            Err(why) => self.refuse_placed(context, control, request, why),
        }
    }

    fn answer_queue<W: Wait, R: Wait + Drop>(
        &mut self,
        context: &Context<'_, B, M, W, R>,
        control: &mut Control<B, M, R>,
        request: Request,
        queue: &Queue,
    ) -> Result<(), AnswerError>
        ensures row { RepliesFound (IsPutAt Standing.State M.outbox_of control.old.history) request (queue_found (texts_in queue.now)) self.old result self.new }
        ensures error { UnlessShut request.wants_answer result self.new }
    {
        match queue {
            Queue::Bus => {
                self.answer_texts_placed(context, control, request, [BUS_NAME].as_slice())
            }
            Queue::Connections(unique) => {
                self.answer_connections(context, control, request, unique.as_slice())
            }
        }
    }

    fn answer_connections<W: Wait, R: Wait + Drop>(
        &mut self,
        context: &Context<'_, B, M, W, R>,
        control: &mut Control<B, M, R>,
        request: Request,
        unique: &[UniqueName],
    ) -> Result<(), AnswerError>
        ensures row { RepliesFound (IsPutAt Standing.State M.outbox_of control.old.history) request (queue_found (map unique_name unique.now)) self.old result self.new }
        ensures error { UnlessShut request.wants_answer result self.new }
    {
        if unique.is_empty() {
            let why = Refused::Error(ErrorName::NameHasNoOwner);
            return self.refuse_placed(context, control, request, why);
        }
        self.answer_unique(context, control, request, unique)
    }

    fn answer_unique<W: Wait, R: Wait + Drop>(
        &mut self,
        context: &Context<'_, B, M, W, R>,
        control: &mut Control<B, M, R>,
        request: Request,
        unique: &[UniqueName],
    ) -> Result<(), AnswerError>
        ensures row { RepliesTextsBy (IsPutAt Standing.State M.outbox_of control.old.history) request (map unique_name unique.now) self.old result self.new }
        ensures error { UnlessShut request.wants_answer result self.new }
    {
        match texts_of(context.alloc, unique) {
            Ok(texts) => self.answer_texts_placed(context, control, request, texts.as_slice()),
            Err(_) => {
                self.refuse_placed(
                    context,
                    control,
                    request,
                    Refused::Error(ErrorName::NoMemory),
                )
            }
        }
    }

    // Those who have claims on the name that a text is, or why that can't be told.
    fn queue_named<R: Wait + Drop>(
        &mut self,
        alloc: Global,
        control: &Control<B, M, R>,
        text: &str,
    ) -> Result<Queue, Refused>
        ensures queue { IsQueueOf (after self.new.pass.seen) text.now result }
        ensures seen { MatchResult result (λ _. self.new.pass.seen ≡ control.now.history) (λ why. HasLooked why control.now.history self.new.pass) }
        ensures later { HasSeenMore self.old.pass self.new.pass }
        ensures same { self.new ≡ with_pass self.old self.new.pass }
    {
        control.tell(&mut self.pass)?;
        let name = AskedName::read(text)?;
        match queue_of(alloc, control, &name) {
            Ok(queue) => Ok(queue),
            Err(_) => Err(Refused::Error(ErrorName::NoMemory)),
        }
    }
}

// The claims on a name, in order; none if nobody owns it.
fn queue_of<B: BusBrand, M: Mailbox, R: Wait + Drop>(
    alloc: Global,
    control: &Control<B, M, R>,
    name: &AskedName,
) -> Result<Queue, AllocError>
    ensures queue { IfOk result (λ queue. texts_in queue ≡ queue_in (after control.now.history) name.now) }
{
    match name {
        AskedName::Bus => Ok(Queue::Bus),
        AskedName::Unique(number) => {
            Ok(Queue::Connections(queue_of_one(alloc, control, *number)?))
        }
        AskedName::WellKnown(name) => {
            let queue = control.queued_owners(alloc, name)?;
            Ok(Queue::Connections(unique_names(alloc, queue.as_slice())?))
        }
    }
}

// A unique name's only claim is that of its connection.
fn queue_of_one<B: BusBrand, M: Mailbox, R: Wait + Drop>(
    alloc: Global,
    control: &Control<B, M, R>,
    number: Option<u64>,
) -> Result<Vec<UniqueName>, AllocError>
    ensures queue { IfOk result (λ queue. map unique_name queue.items ≡ queue_in (after control.now.history) (AskedName.Unique number)) }
{
    let mut queue = Vec::new(alloc);
    if let Some(number) = number {
        if control.is_connected(number) {
            queue.push(UniqueName::new(number))?;
        }
    }
    Ok(queue)
}

/// Who has claims on a name.
#[derive(Drop)]
enum Queue {
    /// The bus, on its own name.
    Bus,
    Connections(Vec<UniqueName>),
}

fn unique_names(alloc: Global, numbers: &[u64]) -> Result<Vec<UniqueName>, AllocError>
    ensures { IfOk result (λ unique. unique.items ≡ numbers.now) }
{
    let mut unique = Vec::with_capacity(alloc, numbers.len())?;
    for number in numbers {
        unique.push(UniqueName::new(*number))?;
    }
    Ok(unique)
}

fn texts_of<'a>(alloc: Global, unique: &'a [UniqueName]) -> Result<Vec<&'a str>, AllocError>
    ensures { IfOk result (λ texts. lent_texts texts.items ≡ map unique_name unique.now) }
{
    let mut texts = Vec::with_capacity(alloc, unique.len())?;
    for owner in unique {
        texts.push(owner.as_str())?;
    }
    Ok(texts)
}

fn all_name_texts<'a>(
    alloc: Global,
    unique: &'a [UniqueName],
    names: &'a [WellKnown],
) -> Result<Vec<&'a str>, AllocError>
    ensures { IfOk result (λ texts. lent_texts texts.items ≡ (bus_name ∷ map unique_name unique.now) ++ names.now) }
{
    let mut texts = texts_of(alloc, unique)?;
    texts.insert(0, BUS_NAME)?;
    for name in names {
        texts.push(name.as_str())?;
    }
    Ok(texts)
}
