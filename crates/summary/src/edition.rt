ghost use Rattle.std.specs.Prelude.{◌≡◌};
ghost use Rattle.summary.specs.Layout.{summary_len};

/// Which summary a program reads.
#[derive(Clone, Copy, Debug, PartialEq, Eq)]
pub enum Edition {
    /// 904 bytes, with the slots below 512.
    One,
    /// 976 bytes, with all slots and the serials.
    Two,
}

impl Edition {
    /// The number of a summary's bytes.
    pub fn summary_len(self) -> usize
        ensures { result ≡ summary_len self }
    {
        match self {
            Edition::One => 904,
            Edition::Two => 976,
        }
    }
}
