//! Paths of pages.

ghost use Rattle.std.specs.Prelude.{◌≡◌, codes};
ghost use Rattle.std.specs.Str.{bytes_eq};
ghost use Rattle.scip_pages.specs.Paths as spec;

/// Whether a component is empty.
fn is_empty(name: &str) -> bool
    ensures { result ≡ bytes_eq name.now (codes "") }
{
    name == ""
}

/// Whether it is `.`.
fn is_dot(name: &str) -> bool
    ensures { result ≡ bytes_eq name.now (codes ".") }
{
    name == "."
}

/// Whether it is `..`.
fn is_parent(name: &str) -> bool
    ensures { result ≡ bytes_eq name.now (codes "..") }
{
    name == ".."
}

/// Whether a path has an empty component.
fn has_empty(path: &str) -> bool
    ensures { result ≡ spec.has_name (codes "") path.now }
{
    path.split('/').any(|name| is_empty(name))
}

/// Whether it has a component `.`.
fn has_dot(path: &str) -> bool
    ensures { result ≡ spec.has_name (codes ".") path.now }
{
    path.split('/').any(|name| is_dot(name))
}

/// Whether it has a component `..`.
fn has_parent(path: &str) -> bool
    ensures { result ≡ spec.has_name (codes "..") path.now }
{
    path.split('/').any(|name| is_parent(name))
}

/// Whether a document's path is that of a page: it leads to a place of its own below the folder of the pages. It
/// doesn't begin with a slash, and has no component that is empty, `.` (another path may lead to the same place) or
/// `..`.
pub fn is_path_below(path: &str) -> bool
    ensures { result ≡ spec.is_path_below path.now }
{
    !path.as_bytes().starts_with(b"/") && !has_empty(path) && !has_dot(path) && !has_parent(path)
}
