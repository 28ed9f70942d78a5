// Numbers of arguments.
ghost use Rattle.std.specs.Prelude.{◌≡◌, ◌≤◌, None, Some, IfSome, if◌then◌else◌, nat_le};
ghost use Rattle.match_key.specs.ArgNumber.{octal_value, octal_of, number_of_arg, arg_of_number, first_arg, max_arg};

/// The greatest number of an argument that a rule may ask for.
pub(crate) const MAX_ARG: u8 = 63;

/// A digit in base 8.
#[derive(Clone, Copy, Debug, PartialEq, Eq)]
enum Octal {
    Zero,
    One,
    Two,
    Three,
    Four,
    Five,
    Six,
    Seven,
}

impl Octal {
    /// The digit of a number below 8.
    fn of(number: u8) -> Octal
        ensures { result ≡ octal_of number }
    {
        match number {
            0 => Octal::Zero,
            1 => Octal::One,
            2 => Octal::Two,
            3 => Octal::Three,
            4 => Octal::Four,
            5 => Octal::Five,
            6 => Octal::Six,
            _ => Octal::Seven,
        }
    }

    /// The number that the digit stands for.
    fn value(self) -> u8
        ensures { result ≡ octal_value self }
    {
        match self {
            Octal::Zero => 0,
            Octal::One => 1,
            Octal::Two => 2,
            Octal::Three => 3,
            Octal::Four => 4,
            Octal::Five => 5,
            Octal::Six => 6,
            Octal::Seven => 7,
        }
    }
}

/// The number of an argument that a rule may ask for, 0 to 63 (D-Bus Specification, "Match Rules"): two digits in base 8,
/// so that there is no other.
#[derive(Clone, Copy, Debug, PartialEq, Eq)]
pub struct ArgNumber {
    eights: Octal,
    ones: Octal,
}

impl ArgNumber {
    /// Argument 0.
    pub fn first() -> Self
        ensures { result ≡ first_arg }
    {
        ArgNumber {
            eights: Octal::Zero,
            ones: Octal::Zero,
        }
    }

    /// The number, if a rule may ask for that argument.
    pub fn new(number: u8) -> Option<Self>
        ensures value { result ≡ (if nat_le number max_arg then Some (arg_of_number number) else None) }
        ensures same { IfSome result (λ argument. number_of_arg argument ≡ number) }
    {
        if number > MAX_ARG {
            return None;
        }
        Some(ArgNumber {
            eights: Octal::of(number / 8),
            ones: Octal::of(number % 8),
        })
    }

    /// Which argument it is, counted from 0.
    pub fn number(self) -> u8
        ensures value { result ≡ number_of_arg self }
        ensures small { result ≤ max_arg }
    {
        8 * self.eights.value() + self.ones.value()
    }
}
