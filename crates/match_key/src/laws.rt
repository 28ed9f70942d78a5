// What holds of keys beside one another.
ghost use Rattle.std.specs.Prelude.{◌≡◌};
ghost use Rattle.std.specs.Bool.{Decides};
ghost use Rattle.match_key.specs.declared.key.Key.{Key};
ghost use Rattle.match_key.specs.Key.{key_eq};

/// `==` holds of a key and itself, and of no two others.
pub fn equality_of_keys()
    ensures { (a b : Key) → Decides (key_eq a b) (a ≡ b) }
{}
