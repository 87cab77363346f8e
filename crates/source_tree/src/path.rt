//! Good paths.

ghost use Rattle.std.specs.Prelude.{◌≡◌, ◌↔◌, IsTrue, nat_eq};
ghost use Rattle.std.specs.List.{list_all, slice_split};
ghost use Rattle.source_tree.specs.Path.{IsGoodPath, is_component, is_good_folder, is_printable, slash};

/// The most bytes of a path.
pub const MAX_PATH_LENGTH: usize = 4096;

/// What a path ends in.
const ENDING: &str = ".proto";

/// Whether a path is a good one, by which a source may be named: it is good for a folder, and has `.proto` at its end.
/// Takes no memory.
pub fn is_good_path(path: &str) -> bool
    ensures { IsTrue result ↔ IsGoodPath path.now }
{
    is_good_folder(path) && path.ends_with(ENDING)
}

/// Whether a path is good for a folder: it has at most `MAX_PATH_LENGTH` bytes, no character below U+0020, and names
/// between its `/` that aren't empty, `.` or `..`. Takes no memory.
pub fn is_good_folder(path: &str) -> bool
    ensures { result ≡ is_good_folder path.now }
{
    path.len() <= MAX_PATH_LENGTH && is_printable(path) && has_good_components(path)
}

/// Whether a text has no character below U+0020.
fn is_printable(path: &str) -> bool
    ensures { result ≡ list_all is_printable path.now }
{
    path.as_bytes().iter().all(|byte| *byte >= b' ')
}

/// Whether each part between `/` is a component.
fn has_good_components(path: &str) -> bool
    ensures { result ≡ list_all is_component (slice_split (λ byte. nat_eq byte slash) path.now) }
{
    path.split('/').all(|component| is_component(component))
}

/// Whether a text is a component of a good path.
fn is_component(component: &str) -> bool
    ensures { result ≡ is_component component.now }
{
    !matches!(component, "" | "." | "..")
}
