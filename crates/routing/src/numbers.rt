// Lists of what belongs to connections, by the connections' numbers, which rise.

ghost use Rattle.std.specs.Prelude.{◌≡◌, IfErr, IfOk};
ghost use Rattle.routing.specs.Numbers.{AreRising, IsAt, IsGap};

/// What belongs to a connection, and bears its number.
pub(crate) trait Numbered {
    ghost use Rattle.std.specs.Prelude.{◌≡◌, ℕ};

    ghost number_of: { Self → ℕ };

    fn number(&self) -> u64
        ensures { result ≡ number_of self.now };
}

/// Where what bears the number stands, or else where it would.
pub(crate) fn place_of<T: Numbered>(list: &[T], number: u64) -> Result<usize, usize>
    requires { AreRising T.number_of list.now }
    ensures found { IfOk result (IsAt T.number_of number list.now) }
    ensures gap { IfErr result (IsGap T.number_of number list.now) }
{
    list.binary_search_by_key(&number, |it| it.number())
}

/// As `place_of`, and at once if it stands at the place that is guessed.
pub(crate) fn place_near<T: Numbered>(list: &[T], guess: usize, number: u64) -> Result<usize, usize>
    requires { AreRising T.number_of list.now }
    ensures found { IfOk result (IsAt T.number_of number list.now) }
    ensures gap { IfErr result (IsGap T.number_of number list.now) }
{
    if guess < list.len() && list[guess].number() == number {
        return Ok(guess);
    }
    place_of(list, number)
}
