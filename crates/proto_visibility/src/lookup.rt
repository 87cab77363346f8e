//! Who gives a name, by the tables, and as what; and what it names in one file.

ghost use Rattle.std.specs.Prelude.{◌≡◌, ◌≢◌, ℕ, List, ◌↔◌, IsTrue, MatchOption, Contains, position, bytes_eq};
ghost use Rattle.std.specs.Prelude.{◌<◌, Some, length};
ghost use Rattle.std.specs.List.Sorted.{IsNonDecreasing};
ghost use Rattle.proto_decl.specs.declared.declaration.DeclarationKind.TheVariants.{Enum};
ghost use Rattle.proto_decl.specs.Laws.{IsEntity};
ghost use Rattle.proto_visibility.specs.Knows.NameKind.{OfPackage, OfDeclaration};
ghost use Rattle.proto_visibility.specs.Knows.{admits, IsEntityOf};
ghost use Rattle.proto_visibility.specs.declared.names.DeclaredAt.{DeclaredAt};
ghost use Rattle.proto_visibility.specs.Tables.GivenNames.{owned_at, IsAloneIn, IsDeclaring, IsListed, AreNamesOf};
ghost use Rattle.proto_visibility.specs.Tables.GivenNames.{AreOfFiles, AreTwoDeclaring, IsBeside, IsDeclaringBeside};

use crate::files::{LinkFile, is_present};
use crate::names::{DeclaredAt, Names};
use crate::rows::SeenRow;
use proto_decl::{Declaration, DeclarationKind, FileFacts};

/// As a type, as what an `extend` extends, or as what may hold names.
#[derive(Clone, Copy, Debug, PartialEq, Eq)]
pub enum Role {
    /// As a message or an enum.
    AsType,
    /// As a message.
    AsMessage,
    /// As a package, a message, an enum or a service.
    AsAggregate,
}

impl Role {
    /// Whether a declaration of this kind has the role.
    pub(crate) fn admits(self, kind: DeclarationKind) -> bool
        ensures { result ≡ admits self (OfDeclaration kind) }
    {
        match kind {
            DeclarationKind::Message => true,
            DeclarationKind::Enum => self.admits_enums(),
            DeclarationKind::Service => self.admits_packages(),
            DeclarationKind::Field
            | DeclarationKind::Oneof
            | DeclarationKind::Value
            | DeclarationKind::Method => false,
        }
    }

    /// Whether enums have it.
    fn admits_enums(self) -> bool
        ensures { result ≡ admits self (OfDeclaration Enum) }
    {
        match self {
            Role::AsMessage => false,
            Role::AsType | Role::AsAggregate => true,
        }
    }

    /// Whether packages have it.
    pub(crate) fn admits_packages(self) -> bool
        ensures { result ≡ admits self OfPackage }
    {
        match self {
            Role::AsType | Role::AsMessage => false,
            Role::AsAggregate => true,
        }
    }
}

/// A file of a row that gives a name in this role, if there is one.
pub(crate) fn giving_in(names: &Names, row: &SeenRow, name: &str, role: Role) -> Option<usize>
    requires { (other : List ℕ) → IsNonDecreasing (owned_at names.now.packages other) }
    ensures { MatchOption result ((number : ℕ) → Contains row.now number → IsListed names.now (admits role) name.now
        number → ⊥) (λ number. Contains row.now number × IsListed names.now (admits role) name.now number) }
{
    if let Some(number) = first_declaring(names.declaring(name), row, role) {
        return Some(number);
    }
    if role.admits_packages() {
        return shared(names.packaging(name), row);
    }
    None
}

/// The file of the first of these declarations that is admitted in this role and whose file is in
/// the row.
fn first_declaring(declared: &[DeclaredAt], row: &SeenRow, role: Role) -> Option<usize>
    ensures { MatchOption result ((number : ℕ) → Contains row.now number → IsDeclaring declared.now (admits role) number
        → ⊥) (λ number. Contains row.now number × IsDeclaring declared.now (admits role) number) }
{
    for one in declared {
        if !role.admits(one.kind) {
            continue;
        }
        if row.has(one.file) {
            return Some(one.file);
        }
    }
    None
}

/// The only file of a row of which one of these declarations is admitted in this role, if there is just one.
pub(crate) fn only_declaring(declared: &[DeclaredAt], row: &SeenRow, role: Role) -> Option<usize>
    ensures { MatchOption result ((number : ℕ) → IsAloneIn row.now declared.now (admits role) number → ⊥)
        (IsAloneIn row.now declared.now (admits role)) }
{
    match first_declaring(declared, row, role) {
        Some(first) => unless_elsewhere(declared, row, role, first),
        None => None,
    }
}

/// A file of a row of which a declaration is admitted, unless one of another file of the row is, too.
fn unless_elsewhere(
    declared: &[DeclaredAt],
    row: &SeenRow,
    role: Role,
    first: usize,
) -> Option<usize>
    requires there { Contains row.now first }
    requires declares { IsDeclaring declared.now (admits role) first }
    ensures { MatchOption result ((number : ℕ) → IsAloneIn row.now declared.now (admits role) number → ⊥)
        (IsAloneIn row.now declared.now (admits role)) }
{
    if is_declared_elsewhere(declared, row, role, first) {
        None
    } else {
        Some(first)
    }
}

/// Whether one of these declarations is admitted in this role, and is of a file of a row, but not of this one.
fn is_declared_elsewhere(declared: &[DeclaredAt], row: &SeenRow, role: Role, file: usize) -> bool
    ensures { IsTrue result ↔ ((number : ℕ) × (number ≢ file) × Contains row.now number
        × IsDeclaring declared.now (admits role) number) }
{
    for other in declared {
        if other.file == file {
            continue;
        }
        if !role.admits(other.kind) {
            continue;
        }
        if row.has(other.file) {
            return true;
        }
    }
    false
}

/// Whether two files of a row that aren't left out have one each of these declarations that is admitted in this role.
pub(crate) fn are_two_declaring(
    files: &[LinkFile],
    declared: &[DeclaredAt],
    row: &SeenRow,
    role: Role,
) -> bool
    requires { AreOfFiles files.now declared.now }
    ensures { IsTrue result ↔ AreTwoDeclaring files.now row.now declared.now (admits role) }
{
    match declaring_beside(files, declared, row, role, None) {
        Some(first) => declaring_beside(files, declared, row, role, Some(first)).is_some(),
        None => false,
    }
}

/// A file of a row that isn't left out, of which one of these declarations is admitted in this role; but not this one.
fn declaring_beside(
    files: &[LinkFile],
    declared: &[DeclaredAt],
    row: &SeenRow,
    role: Role,
    beside: Option<usize>,
) -> Option<usize>
    requires { AreOfFiles files.now declared.now }
    ensures { MatchOption result
        ((number : ℕ) → IsDeclaringBeside files.now row.now declared.now (admits role) beside number → ⊥)
        (IsDeclaringBeside files.now row.now declared.now (admits role) beside) }
{
    for given in declared {
        if is_beside(files, given, row, role, beside) {
            return Some(given.file);
        }
    }
    None
}

/// Whether a declaration is admitted in this role, and is of a file of a row that isn't left out and isn't this one.
fn is_beside(
    files: &[LinkFile],
    one: &DeclaredAt,
    row: &SeenRow,
    role: Role,
    beside: Option<usize>,
) -> bool
    requires { one.now.file < length files.now }
    ensures { IsTrue result ↔ IsBeside files.now row.now (admits role) beside one.now }
{
    if !is_other(one.file, beside) || !role.admits(one.kind) {
        return false;
    }
    row.has(one.file) && is_present(files, one.file)
}

/// Whether a number isn't this one.
fn is_other(number: usize, beside: Option<usize>) -> bool
    ensures { IsTrue result ↔ (Some number ≢ beside) }
{
    match beside {
        Some(first) => number != first,
        None => true,
    }
}

/// A file that is among these numbers, which don't fall, and in a row. Each of the fewer is looked for in the other.
fn shared(numbers: &[usize], row: &SeenRow) -> Option<usize>
    requires { IsNonDecreasing numbers.now }
    ensures { MatchOption result ((number : ℕ) → Contains numbers.now number → Contains row.now number → ⊥)
        (λ number. Contains numbers.now number × Contains row.now number) }
{
    if numbers.len() < row.size() {
        first_seen(numbers, row)
    } else {
        row.one_among(numbers)
    }
}

/// The first of these numbers that is in a row.
fn first_seen(numbers: &[usize], row: &SeenRow) -> Option<usize>
    ensures { MatchOption result ((number : ℕ) → Contains numbers.now number → Contains row.now number → ⊥)
        (λ number. Contains numbers.now number × Contains row.now number) }
{
    for number in numbers {
        if row.has(*number) {
            return Some(*number);
        }
    }
    None
}

/// Whether a number is among others, which don't fall.
pub(crate) fn stands_among(number: usize, others: &[usize]) -> bool
    requires { IsNonDecreasing others.now }
    ensures { IsTrue result ↔ Contains others.now number }
{
    others.binary_search(&number).is_ok()
}

/// The index of the first of these declarations that is of the file with this number.
pub(crate) fn index_in(declared: &[DeclaredAt], file: usize) -> Option<usize>
    ensures { MatchOption result ((one : DeclaredAt) → Contains declared.now one → one.file ≡ file → ⊥)
        (λ index. (one : DeclaredAt) × Contains declared.now one × (one.file ≡ file) × (one.index ≡ index)) }
{
    for listed in declared {
        if listed.file == file {
            return Some(listed.index);
        }
    }
    None
}

/// What a full name names in a file: a package or a declaration.
#[derive(Clone, Copy, Debug, PartialEq, Eq)]
pub enum Entity {
    /// The package of the full name's first components, so many.
    Package(usize),
    /// A declaration, by its file's number and its index among that file's declarations.
    Declared(usize, usize),
}

/// The index of the first declaration with a full name.
fn first_with(declarations: &[Declaration], name: &str) -> Option<usize>
    ensures { result ≡ position (λ declaration. bytes_eq declaration.full_name name.now) declarations.now }
{
    declarations
        .iter()
        .position(|declaration| declaration.full_name().is(name))
}

/// What a full name of this many components names, if it is that of a declaration or a package of the file with this
/// number. The tables have all that can hold types.
#[tactic(auto, using(crate::proofs::LookupEntityLemmas::listed_entity))]
pub(crate) fn entity_in(
    names: &Names,
    number: usize,
    facts: &FileFacts,
    name: &str,
    count: usize,
) -> Entity
    requires entity { IsEntity facts.now name.now }
    requires names { AreNamesOf number facts.now names.now }
    ensures { IsEntityOf number facts.now name.now count result }
{
    if let Some(index) = index_in(names.declaring(name), number) {
        return Entity::Declared(number, index);
    }
    if stands_among(number, names.packaging(name)) {
        return Entity::Package(count);
    }
    other_entity(number, facts, name, count)
}

/// The same by a scan, for what the tables leave out: a field, a value, a oneof or a method.
#[tactic(auto, using(crate::proofs::LookupEntityLemmas::found_entity))]
fn other_entity(number: usize, facts: &FileFacts, name: &str, count: usize) -> Entity
    requires { IsEntity facts.now name.now }
    ensures { IsEntityOf number facts.now name.now count result }
{
    match first_with(facts.declarations(), name) {
        Some(index) => Entity::Declared(number, index),
        None => Entity::Package(count),
    }
}
