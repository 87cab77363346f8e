//! The scopes around a name.

use proto_decl::scope_around;

#[test]
fn scopes(rt: HostRuntime) {
    for (scope, around) in [("a.b.M", Some("a.b")), ("a", Some("")), ("", None)] {
        assert!(rt; scope_around(scope) == around, "{scope}");
    }
}
