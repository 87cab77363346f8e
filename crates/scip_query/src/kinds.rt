//! The names of kinds.

ghost use Rattle.std.specs.Prelude.{◌≡◌, IfOk};
ghost use Rattle.std.specs.Fmt.{signed_decimal};
ghost use Rattle.std.specs.Option.{option_map};
ghost use Rattle.std.specs.String.{string_bytes};
ghost use Rattle.scip_query.specs.CommandViews.{text_of};
ghost use Rattle.scip_query.specs.Kinds.{kind_name, kind_text};

use std::alloc::{AllocError, Global};

/// The names of the kinds, in the order of their numbers (`scip.proto`, `SymbolInformation.Kind`).
const KIND_NAMES: &str =
    "- Array Assertion AssociatedType Attribute Axiom Boolean Class Constant Constructor \
DataFamily Enum EnumMember Event Fact Field File Function Getter Grammar Instance Interface Key Lang Lemma Macro \
Method MethodReceiver Message Module Namespace Null Number Object Operator Package PackageObject Parameter \
ParameterLabel Pattern Predicate Property Protocol Quasiquoter SelfParameter Setter Signature Subscript String \
Struct Tactic Theorem ThisParameter Trait Type TypeAlias TypeClass TypeFamily TypeParameter Union Value Variable \
Contract Error Library Modifier AbstractMethod MethodSpecification ProtocolMethod PureVirtualMethod TraitMethod \
TypeClassMethod Accessor Delegate MethodAlias SingletonClass SingletonMethod StaticDataMember StaticEvent \
StaticField StaticMethod StaticProperty StaticVariable 83 Extension Mixin Concept";

/// The name of a kind, if it has one.
pub(crate) fn kind_name(kind: i32) -> Option<&'static str>
    ensures { option_map text_of result ≡ kind_name kind }
{
    match usize::try_from(kind) {
        Ok(number) => KIND_NAMES.split(' ').nth(number),
        Err(_) => None,
    }
}

/// The number of a kind, as a text.
fn kind_number(alloc: Global, kind: i32) -> Result<String, AllocError>
    ensures { IfOk result (λ text. string_bytes text ≡ signed_decimal kind) }
{
    let mut text = String::new(alloc);
    write!(text, "{kind}")?;
    Ok(text)
}

/// The name that `scip.proto` has for a kind (`SymbolInformation.Kind`), the number of one without a name, and `-` for
/// 0.
pub fn kind_text(alloc: Global, kind: i32) -> Result<String, AllocError>
    ensures { IfOk result (λ text. string_bytes text ≡ kind_text kind) }
{
    match kind_name(kind) {
        Some(name) => String::from_str(alloc, name),
        None => kind_number(alloc, kind),
    }
}
