ghost use Rattle.std.specs.Prelude.{◌≡◌};
ghost use Rattle.bpf_text.specs.Mnemonics.{mnemonic_of};

use bpf_code::{Arithmetic, Test, Width};

/// The word that names an instruction.
#[derive(Clone, Copy)]
pub enum Mnemonic {
    Load(Width),
    LoadX,
    LoadHeader,
    Store,
    StoreIndex,
    Compute(Arithmetic),
    Negation,
    Always,
    When(Test),
    Return,
    ToIndex,
    FromIndex,
}

/// The words that name instructions.
const WORDS: [(&[u8], Mnemonic); 26] = [
    (b"ld", Mnemonic::Load(Width::Word)),
    (b"ldh", Mnemonic::Load(Width::Half)),
    (b"ldb", Mnemonic::Load(Width::Byte)),
    (b"ldx", Mnemonic::LoadX),
    (b"ldxb", Mnemonic::LoadHeader),
    (b"st", Mnemonic::Store),
    (b"stx", Mnemonic::StoreIndex),
    (b"add", Mnemonic::Compute(Arithmetic::Add)),
    (b"sub", Mnemonic::Compute(Arithmetic::Sub)),
    (b"mul", Mnemonic::Compute(Arithmetic::Mul)),
    (b"div", Mnemonic::Compute(Arithmetic::Div)),
    (b"or", Mnemonic::Compute(Arithmetic::Or)),
    (b"and", Mnemonic::Compute(Arithmetic::And)),
    (b"lsh", Mnemonic::Compute(Arithmetic::ShiftLeft)),
    (b"rsh", Mnemonic::Compute(Arithmetic::ShiftRight)),
    (b"mod", Mnemonic::Compute(Arithmetic::Mod)),
    (b"xor", Mnemonic::Compute(Arithmetic::Xor)),
    (b"neg", Mnemonic::Negation),
    (b"ja", Mnemonic::Always),
    (b"jeq", Mnemonic::When(Test::Equal)),
    (b"jgt", Mnemonic::When(Test::Above)),
    (b"jge", Mnemonic::When(Test::AtLeast)),
    (b"jset", Mnemonic::When(Test::SharesBit)),
    (b"ret", Mnemonic::Return),
    (b"tax", Mnemonic::ToIndex),
    (b"txa", Mnemonic::FromIndex),
];

impl Mnemonic {
    /// The mnemonic that a word is, if it is one.
    pub fn of(word: &[u8]) -> Option<Mnemonic>
        ensures { result ≡ mnemonic_of word.now }
    {
        for (name, mnemonic) in &WORDS {
            if word == *name {
                return Some(*mnemonic);
            }
        }
        None
    }
}
