//! Worked trees.

use crate::trees::{Due, see_tree};
use std::alloc::Global;
use std::test::Fail;
use test_kit::{Draft, Made};

/// A tree, and what linking answers to it.
struct Row {
    tree: &'static str,
    answer: &'static str,
}

/// The first row reads: `a.proto` sees all three files, and each other one itself alone; the use of
/// `a.proto` at the bytes 81 to 106 names no type. In the second it names the type
/// `google.protobuf.Timestamp`, by a package of one word, one of two, and the first declaration of
/// file 2.
static ROWS: [Row; 20] = [
    Row {
        tree: "a.proto\nsyntax = \"proto3\";\npackage acme;\nimport \"b.proto\";\nimport \"t.proto\";\nmessage M { google.protobuf.Timestamp t = 1; }\n|\
b.proto\nsyntax = \"proto3\";\npackage acme.google;\n|\
t.proto\nsyntax = \"proto3\";\npackage google.protobuf;\nmessage Timestamp {}\n|",
        answer: "a.proto 111; ? 0 81..106\nb.proto 010\nt.proto 001\n",
    },
    Row {
        tree: "a.proto\nsyntax = \"proto3\";\npackage acme;\nimport \"b.proto\";\nimport \"t.proto\";\nmessage M { .google.protobuf.Timestamp t = 1; }\n|\
b.proto\nsyntax = \"proto3\";\npackage acme.google;\n|\
t.proto\nsyntax = \"proto3\";\npackage google.protobuf;\nmessage Timestamp {}\n|",
        answer: "a.proto 111; google.protobuf.Timestamp 1 2 2/0\nb.proto 010\nt.proto 001\n",
    },
    Row {
        tree: "a.proto\nsyntax = \"proto3\";\npackage p;\nmessage Foo {}\nmessage M { string Foo = 1; Foo x = 2; }\n|",
        answer: "a.proto 1; p.Foo 0/0\n",
    },
    Row {
        tree: "a.proto\nsyntax = \"proto3\";\nmessage Foo {}\nservice S { rpc Foo(Foo) returns (stream Foo); }\n|",
        answer: "a.proto 1; Foo 0/0; Foo 0/0\n",
    },
    Row {
        tree: "a.proto\nsyntax = \"proto3\";\nimport \"b.proto\";\nmessage M { D d = 1; }\n|\
b.proto\nsyntax = \"proto3\";\nimport public \"c.proto\";\n|\
c.proto\nsyntax = \"proto3\";\nimport public \"d.proto\";\n|\
d.proto\nsyntax = \"proto3\";\nmessage D {}\n|",
        answer: "a.proto 1111; D 3/0\nb.proto 0111\nc.proto 0011\nd.proto 0001\n",
    },
    Row {
        tree: "a.proto\nsyntax = \"proto3\";\nimport \"b.proto\";\nmessage M { D d = 1; }\n|\
b.proto\nsyntax = \"proto3\";\nimport public \"c.proto\";\n|\
c.proto\nsyntax = \"proto3\";\nimport \"d.proto\";\n|\
d.proto\nsyntax = \"proto3\";\nmessage D {}\n|",
        answer: "a.proto 1110; ? 0 49..50\nb.proto 0110\nc.proto 0011\nd.proto 0001\n",
    },
    Row {
        tree: "a.proto\nsyntax = \"proto3\";\nimport \"b.proto\";\nmessage M { D d = 1; }\n|\
b.proto\nsyntax = \"proto3\";\nimport public \"c.proto\";\n|\
c.proto\nsyntax = \"proto3\";\nimport public \"d.proto\";\n|",
        answer: "missing 2 33..42\n",
    },
    Row {
        tree: "a.proto\nsyntax = \"proto3\";\nmessage M {\n  enum A { ZERO = 0; }\n  enum B { ZERO = 0; }\n}\n|",
        answer: "duplicate 0 42..46 0 65..69\n",
    },
    Row {
        tree: "a.proto\nsyntax = \"proto3\";\nimport \"b.proto\";\nmessage A { B b = 1; }\n|\
b.proto\nsyntax = \"proto3\";\nimport \"a.proto\";\nmessage B { A a = 1; }\n|",
        answer: "a.proto 11; B 1/0\nb.proto 11; A 0/0\n",
    },
    Row {
        tree: "ab.proto\nsyntax = \"proto3\";\n|\
m.proto\nsyntax = \"proto3\";\nimport \"a\"\n\"b.proto\";\n|",
        answer: "ab.proto 10\nm.proto 11\n",
    },
    Row {
        tree: "a.proto\nsyntax = \"proto3\";\nimport \"t.proto\";\nmessage M { lib.T t = 1; }\n|\
+t.proto\nsyntax = \"proto3\";\npackage lib;\n// A thing.\nmessage T { int32 n = 1; }\n|\
+u.proto\nedition = \"2023\";\n|",
        answer: "a.proto 110; lib.T 1 1/0\n+t.proto 010\n+u.proto 001\n",
    },
    Row {
        tree: "a.proto\nsyntax = \"proto3\";\nimport \"t.proto\";\nmessage M { lib.T t = 1; }\nimport \"u.proto\";\n|\
+t.proto\nsyntax = \"proto3\";\npackage lib;\n// A thing.\nmessage T { int32 n = 1; }\n|\
+u.proto\nedition = \"2023\";\n|",
        answer: "broken 2\n",
    },
    Row {
        tree: "a.proto\nsyntax = \"proto3\";\nimport \"t.proto\";\nmessage M { lib.T t = 1; }\n|\
+t.proto\nsyntax = \"proto3\";\npackage lib;\n// A thing.\nmessage T { Gone n = 1; }\nimport \"gone.proto\";\n|\
+u.proto\nedition = \"2023\";\n|",
        answer: "a.proto 110; lib.T 1 1/0\n+t.proto 010\n+u.proto 001\n",
    },
    Row {
        tree: "a.proto\nsyntax = \"proto3\";\nimport \"t.proto\";\nmessage M {}\n|\
+t.proto\nsyntax = \"proto3\";\nmessage M {}\n|",
        answer: "duplicate 0 45..46 1 27..28\n",
    },
    Row {
        tree: "a.proto\nsyntax = \"proto3\";\nmessage M {}\n|\
+t.proto\nsyntax = \"proto3\";\nmessage M {}\n|",
        answer: "a.proto 10\n+t.proto 01\n",
    },
    Row {
        tree: "a.proto\npackage p;\nmessage B { extensions 5; }\nextend B {}\nmessage M { enum C { Z = 0; } extend M.C {} extend C {} extend p.B {} }\n|",
        answer: "a.proto 1; p.B 0/0; ? 0 88..91; ? 0 102..103; p.B 1 0/0\n",
    },
    Row {
        tree: "a.proto\npackage p;\nmessage B {}\nmessage M { enum B { Z = 0; } extend B {} extend .p.B {} }\n|",
        answer: "a.proto 1; ? 0 61..62; p.B 1 0/0\n",
    },
    Row {
        tree: "a.proto\npackage p;\nservice B {}\nextend B {}\nextend p {}\n|",
        answer: "a.proto 1; ? 0 31..32; ? 0 43..44\n",
    },
    Row {
        tree: "a.proto\nsyntax = \"proto3\";\n|b.proto\n|a.proto\n|",
        answer: "a path twice\n",
    },
    Row {
        tree: "",
        answer: "",
    },
];

/// Trees of which files are left out, and what linking answers to the others: those that are left out stand last.
///
/// The first row reads: in `d.proto` the `T` is that of `b.proto`, which is left out for `Z`, and not that of `c.proto`;
/// so it names nothing.
static KEPT_ROWS: [Row; 5] = [
    Row {
        tree: "a.proto\nsyntax = \"proto3\";\npackage p;\nmessage Z {}\n|\
b.proto\nsyntax = \"proto3\";\npackage p;\nmessage T {}\nmessage Z {}\n|\
c.proto\nsyntax = \"proto3\";\nmessage T {}\n|\
d.proto\nsyntax = \"proto3\";\npackage p;\nimport \"b.proto\";\nimport \"c.proto\";\nmessage M { T t = 1; .T u = 2; .p.T v = 3; }\n|",
        answer: "a.proto 1000\nc.proto 0100\nd.proto 0111; ? 2 78..79; T 1/0; ? 2 97..101\n-b.proto 0001\n",
    },
    Row {
        tree: "a.proto\nsyntax = \"proto3\";\npackage p.q;\nmessage Z {}\n|\
b.proto\nsyntax = \"proto3\";\npackage p.q;\nmessage T {}\nmessage Z {}\n|\
c.proto\nsyntax = \"proto3\";\npackage q;\nmessage T {}\nmessage U {}\n|\
d.proto\nsyntax = \"proto3\";\npackage p;\nimport \"b.proto\";\nimport \"c.proto\";\nmessage M { q.U u = 1; .q.U v = 2; }\n|",
        answer: "a.proto 1000\nc.proto 0100\nd.proto 0111; ? 2 78..81; q.U 1 1/1\n-b.proto 0001\n",
    },
    Row {
        tree: "a.proto\nsyntax = \"proto3\";\npackage p;\nmessage M {}\n|\
b.proto\nsyntax = \"proto3\";\npackage p;\nmessage M {}\n|\
c.proto\nsyntax = \"proto3\";\npackage p;\nimport \"a.proto\";\nmessage C { M m = 1; }\n|\
d.proto\nsyntax = \"proto3\";\npackage p;\nimport \"a.proto\";\nimport \"b.proto\";\nmessage D { M m = 1; }\n|",
        answer: "a.proto 1000\nc.proto 1100; p.M 0/0\nd.proto 1011; ? 2 78..79\n-b.proto 0001\n",
    },
    Row {
        tree: "a.proto\nsyntax = \"proto3\";\npackage p;\nmessage Z {}\n|\
b.proto\nsyntax = \"proto3\";\nimport public \"c.proto\";\npackage p;\nmessage Z {}\n|\
c.proto\nsyntax = \"proto3\";\npackage p;\nmessage T {}\n|\
d.proto\nsyntax = \"proto3\";\npackage p;\nimport \"b.proto\";\nmessage D { T t = 1; }\n|",
        answer: "a.proto 1000\nc.proto 0100\nd.proto 0111; p.T 1/0\n-b.proto 0101\n",
    },
    Row {
        tree: "a.proto\nsyntax = \"proto3\";\npackage p;\nmessage Z {}\n|\
b.proto\nsyntax = \"proto3\";\nimport \"x.proto\";\npackage p;\nmessage Z {}\n|\
c.proto\nsyntax = \"proto3\";\nimport \"y.proto\";\npackage p;\nmessage C { Y y = 1; }\n|\
+x.proto\nsyntax = \"proto3\";\npackage p;\nmessage Y {}\n|\
+y.proto\nsyntax = \"proto3\";\npackage p;\nmessage Y {}\n|",
        answer: "a.proto 10000\nc.proto 01010; p.Y 3/0\n+x.proto 00100\n+y.proto 00010\n-b.proto 00101\n",
    },
];

#[test]
fn worked_trees_of_kept_files(rt: HostRuntime) -> Result<(), Fail> {
    for (number, row) in KEPT_ROWS.iter().enumerate() {
        see_tree(&rt, rt.alloc(), number, row.tree, Due::Kept(row.answer))?;
    }
    Ok(())
}

/// Trees of which a file can't be read, and what linking answers to the others. A use is uncertain if a file that is seen
/// can't be read and may have its first word nearer than where it is found.
///
/// The first row reads: in `a.proto` the first `T` is found in the package `p`, around that of the file; `b.proto` may have
/// one in `p.q`. No other use is uncertain: `N` and `K` are found in the package and in the message, `Gone` nowhere, and
/// `.p.T` is looked up nowhere else.
static UNCERTAIN_ROWS: [Row; 5] = [
    Row {
        tree: "a.proto\nsyntax = \"proto3\";\npackage p.q;\nimport \"b.proto\";\nimport \"c.proto\";\nmessage M { T t = 1; N n = 2; Gone g = 3; .p.T u = 4; message K {} K k = 5; }\nmessage N {}\n|\
b.proto\nmessage T {\n|\
c.proto\nsyntax = \"proto3\";\npackage p;\nmessage T {}\n|",
        answer: "a.proto 111; p.T 1/0; p.q.N 0/7; ? 0 98..102; p.T 1 1/0; p.q.M.K 0/5\nc.proto 010\n-b.proto 001\nuncertain 0 80..81 behind 2\n",
    },
    Row {
        tree: "a.proto\nsyntax = \"proto3\";\npackage p.q;\nimport \"c.proto\";\nimport \"d.proto\";\nmessage M { T t = 1; }\n|\
b.proto\nsyntax = \"proto3\";\npackage p.q;\nimport \"c.proto\";\nimport \"e.proto\";\nmessage N { T t = 1; }\n|\
c.proto\nsyntax = \"proto3\";\npackage p;\nmessage T {}\n|\
d.proto\nsyntax = \"proto3\";\nimport public \"x.proto\";\n|\
e.proto\nsyntax = \"proto3\";\nimport \"x.proto\";\n|\
x.proto\nmessage T {\n|",
        answer: "a.proto 101101; p.T 2/0\nb.proto 011010; p.T 2/0\nc.proto 001000\nd.proto 000101\ne.proto 000011\n-x.proto 000001\nuncertain 0 80..81 behind 5\n",
    },
    Row {
        tree: "a.proto\nsyntax = \"proto3\";\npackage p.q;\nimport \"b.proto\";\nimport \"c.proto\";\nmessage M { T.U u = 1; T.V v = 2; p.T t = 3; q.N n = 4; N.L l = 5; }\nmessage N { message L {} }\n|\
b.proto\nmessage T {\n|\
c.proto\nsyntax = \"proto3\";\npackage p;\nmessage T { message U {} }\n|",
        answer: "a.proto 111; p.T.U 1/0 1/1; ? 0 91..94; p.T 1 1/0; p.q.N 2 0/6; p.q.N.L 0/6 0/7\nc.proto 010\n-b.proto 001\nuncertain 0 80..83 behind 2\nuncertain 0 102..105 behind 2\nuncertain 0 113..116 behind 2\n",
    },
    Row {
        tree: "a.proto\nsyntax = \"proto3\";\npackage p.q;\nimport \"b.proto\";\nimport \"c.proto\";\nimport \"z.proto\";\nmessage M { T t = 1; U u = 2; }\nmessage Z {}\n|\
b.proto\nsyntax = \"proto3\";\npackage p.q;\nmessage T {}\nmessage Z {}\n|\
c.proto\nsyntax = \"proto3\";\npackage p;\nmessage T {}\nmessage U {}\n|\
y.proto\nmessage T {\n|\
z.proto\nmessage T {\n|",
        answer: "a.proto 11101; ? 0 98..99; p.U 1/1\nc.proto 01000\n-b.proto 00100\n-y.proto 00010\n-z.proto 00001\nuncertain 0 107..108 behind 4\n",
    },
    Row {
        tree: "a.proto\nimport \"b.proto\";\nimport \"c.proto\";\nmessage M { optional T t = 1; }\n|\
b.proto\nmessage T {\n|\
c.proto\nmessage T {}\nmessage B {}\n|\
d.proto\npackage p.q;\nimport \"b.proto\";\nimport \"c.proto\";\nimport \"e.proto\";\nenum B { Y = 0; }\nextend B {}\nextend E {}\nextend T {}\n|\
+e.proto\npackage p;\nimport \"b.proto\";\nimport \"c.proto\";\nmessage E { optional T t = 1; }\n|",
        answer: "a.proto 11001; T 1/0\nc.proto 01000\nd.proto 01111; ? 2 92..93; p.E 3/0; T 1/0\n+e.proto 01011\n-b.proto 00001\nuncertain 2 104..105 behind 4\nuncertain 2 116..117 behind 4\n",
    },
];

#[test]
fn worked_trees_of_uncertain_uses(rt: HostRuntime) -> Result<(), Fail> {
    for (number, row) in UNCERTAIN_ROWS.iter().enumerate() {
        see_tree(&rt, rt.alloc(), number, row.tree, Due::Kept(row.answer))?;
    }
    Ok(())
}

/// Trees of which several files may give one name, and what linking answers to them.
///
/// The first row reads: `p.M` of `a.proto` is what `c.proto` uses, and `d.proto`, which sees both files that give it, uses
/// several types.
static SEVERAL_ROWS: [Row; 5] = [
    Row {
        tree: "a.proto\nsyntax = \"proto3\";\npackage p;\nmessage M {}\n|\
b.proto\nsyntax = \"proto3\";\npackage p;\nmessage M {}\n|\
c.proto\nsyntax = \"proto3\";\npackage p;\nimport \"a.proto\";\nmessage C { M m = 1; }\n|\
d.proto\nsyntax = \"proto3\";\npackage p;\nimport \"a.proto\";\nimport \"b.proto\";\nmessage D { M m = 1; .p.M n = 2; D d = 3; }\n|",
        answer: "a.proto 1000\nb.proto 0100\nc.proto 1010; p.M 0/0\nd.proto 1101; ?? 3 78..79; ?? 3 87..91; p.D 3/0\n",
    },
    Row {
        tree: "a.proto\nsyntax = \"proto3\";\npackage p;\nmessage M { message A {} }\n|\
b.proto\nsyntax = \"proto3\";\npackage p;\nmessage M { message B {} }\n|\
c.proto\nsyntax = \"proto3\";\npackage p;\nimport \"b.proto\";\nmessage C { M.B b = 1; p.M.B c = 2; }\n|\
d.proto\nsyntax = \"proto3\";\npackage p;\nimport \"a.proto\";\nimport \"b.proto\";\nmessage D { M.A a = 1; M.B b = 2; }\n|",
        answer: "a.proto 1000\nb.proto 0100\nc.proto 0110; p.M.B 1/0 1/1; p.M.B 1 1/0 1/1\nd.proto 1101; p.M.A 0/0 0/1; p.M.B 1/0 1/1\n",
    },
    Row {
        tree: "a.proto\nsyntax = \"proto3\";\npackage p.M;\nmessage T {}\n|\
b.proto\nsyntax = \"proto3\";\npackage p;\nmessage M { message U {} }\n|\
d.proto\nsyntax = \"proto3\";\npackage p;\nimport \"a.proto\";\nimport \"b.proto\";\nmessage D { M.T t = 1; M.U u = 2; M m = 3; }\n|",
        answer: "a.proto 100\nb.proto 010\nd.proto 111; p.M.T 2 0/0; p.M.U 1/0 1/1; p.M 1/0\n",
    },
    Row {
        tree: "a.proto\nsyntax = \"proto3\";\npackage p;\nmessage M {}\n|\
c.proto\nsyntax = \"proto3\";\nimport public \"x.proto\";\n|\
d.proto\nsyntax = \"proto3\";\npackage p;\nimport \"c.proto\";\nmessage D { M m = 1; }\n|\
e.proto\nsyntax = \"proto3\";\npackage p;\nimport \"a.proto\";\nimport \"c.proto\";\nmessage E { M m = 1; }\n|\
+x.proto\nsyntax = \"proto3\";\npackage p;\nmessage M {}\n|",
        answer: "a.proto 10000\nc.proto 01001\nd.proto 01101; p.M 4/0\ne.proto 11011; ?? 3 78..79\n+x.proto 00001\n",
    },
    Row {
        tree: "a.proto\nsyntax = \"proto3\";\npackage p;\nmessage M {}\n|\
b.proto\nsyntax = \"proto3\";\npackage p;\nmessage M {}\nenum N { Z = 0; }\nenum O { Z = 0; }\n|",
        answer: "duplicate 1 52..53 1 70..71\n",
    },
];

#[test]
fn worked_trees_with_duplicates(rt: HostRuntime) -> Result<(), Fail> {
    for (number, row) in SEVERAL_ROWS.iter().enumerate() {
        see_tree(&rt, rt.alloc(), number, row.tree, Due::Several(row.answer))?;
    }
    Ok(())
}

#[test]
fn worked_trees(rt: HostRuntime) -> Result<(), Fail> {
    for (number, row) in ROWS.iter().enumerate() {
        see_tree(&rt, rt.alloc(), number, row.tree, Due::Linked(row.answer))?;
    }
    Ok(())
}

/// Adds the path of the file with this number.
fn add_path(draft: &mut Draft, number: usize) {
    draft.add(if number < 10 { "f0" } else { "f" });
    draft.add_size(number);
    draft.add(".proto");
}

/// A hundred files, each of which publicly imports the next, but one, which imports it plainly.
fn chain_of(alloc: Global, plain: usize) -> Made<String> {
    let mut draft = Draft::new(alloc);
    for number in 0..99 {
        add_path(&mut draft, number);
        draft.add("\nsyntax = \"proto3\";\nimport ");
        draft.add(if number == plain { "\"" } else { "public \"" });
        add_path(&mut draft, number + 1);
        draft.add("\";\n|");
    }
    draft.add("f99.proto\nsyntax = \"proto3\";\n|");
    draft.finish()
}

/// What linking answers to them: a file before the plain import sees the files from itself up to it, and
/// any other one those from itself on.
fn sights_of(alloc: Global, plain: usize) -> Made<String> {
    let mut draft = Draft::new(alloc);
    for number in 0..100 {
        add_path(&mut draft, number);
        draft.add(" ");
        for other in 0..100 {
            let is_seen = number <= other && (number >= plain || other <= plain);
            draft.add(if is_seen { "1" } else { "0" });
        }
        draft.add("\n");
    }
    draft.finish()
}

#[test]
fn chains(rt: HostRuntime) -> Result<(), Fail> {
    for plain in [50, 100] {
        let chain = chain_of(rt.alloc(), plain)?;
        let sights = sights_of(rt.alloc(), plain)?;
        let due = Due::Linked(sights.as_str());
        see_tree(&rt, rt.alloc(), plain, chain.as_str(), due)?;
    }
    Ok(())
}
