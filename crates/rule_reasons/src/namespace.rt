// Texts that lie in namespaces.

ghost use Rattle.std.specs.Prelude.{◌≡◌, ◌↔◌, [], ◌∷◌, ◌++◌, IsTrue};
ghost use Rattle.match_rule.specs.Bytes.{ends_with};
ghost use Rattle.match_rule.specs.Holds.{Begins, InPathNamespace, InNamespace, IsFolderOf, AreNested};

/// Whether a text begins with the front and then the byte.
fn begins_with(text: &str, front: &str, byte: u8) -> bool
    ensures { IsTrue result ↔ Begins text.now (front.now ++ byte ∷ []) }
{
    match text.as_bytes().strip_prefix(front.as_bytes()) {
        None => false,
        Some(rest) => match rest.split_first() {
            None => false,
            Some((first, _)) => *first == byte,
        },
    }
}

/// Whether a path is in a namespace: it is the value, or begins with the value and a `/`.
pub(crate) fn is_in_path_namespace(path: &str, value: &str) -> bool
    ensures { IsTrue result ↔ InPathNamespace path.now value.now }
{
    path == value || begins_with(path, value, b'/') || value == "/"
}

/// Whether a name is in a namespace: it is the value, or begins with the value and a `.`.
pub(crate) fn is_in_namespace(text: &str, value: &str) -> bool
    ensures { IsTrue result ↔ InNamespace text.now value.now }
{
    text == value || begins_with(text, value, b'.')
}

fn ends_with_slash(text: &str) -> bool
    ensures { result ≡ ends_with 47 text.now }
{
    match text.as_bytes().split_last() {
        None => false,
        Some((last, _)) => *last == b'/',
    }
}

/// Whether the first ends with `/`, and the second begins with it.
fn is_folder_of(folder: &str, path: &str) -> bool
    ensures { IsTrue result ↔ IsFolderOf folder.now path.now }
{
    ends_with_slash(folder) && path.as_bytes().starts_with(folder.as_bytes())
}

/// Whether both are equal, or one of them is a folder that the other lies in.
pub(crate) fn are_nested(text: &str, value: &str) -> bool
    ensures { IsTrue result ↔ AreNested text.now value.now }
{
    text == value || is_folder_of(text, value) || is_folder_of(value, text)
}
