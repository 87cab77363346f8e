//! Trees of up to 12 files that look like chance, compared with scans.

use crate::trees::{Due, see_tree};
use std::alloc::Global;
use std::test::Fail;
use test_kit::{Draft, Made};

const WORDS: [&str; 12] = ["a", "b", "c", "d", "e", "f", "g", "h", "i", "j", "k", "l"];

/// Parts of a file. `#` stands for one of six words, `^` and `~` for two that the whole part has, `@` for a
/// type, and `%` for the word of a file's path.
const PARTS: [&str; 13] = [
    "message ^ { message ~ { @ x = 1; ^.~ # = 2; } ~ x = 1; @ y = 2; }\n",
    "message ^ { @ x = 1; message ~ { enum # { # = 0; } @ y = 1; } .^.~ # = 2; }\n",
    "enum # { # = 0; }\n",
    "service # { rpc #(@) returns (@); }\n",
    "message ^ { enum ~ { # = 0; } extend @ {} extend ~ {} }\n",
    "import \"%.proto\";\n",
    "import \"%.proto\";\n",
    "import weak \"%.proto\";\n",
    "import weak \"%.proto\";\n",
    "import public \"%.proto\";\n",
    "import public \"%.proto\";\n",
    "import public \"%.proto\";\n",
    "import public \"%.proto\";\n",
];

const PACKAGES: [&str; 4] = ["", "package #;\n", "package #.#;\n", "package #.#.#;\n"];

const TYPES: [&str; 6] = ["#", "#", "#.#", "#.#.#", ".#.#", ".#"];

/// A fixed sequence of numbers that looks like chance.
#[derive(Clone, Copy)]
struct Dice {
    state: u32,
    files: usize,
}

impl Dice {
    /// A number below this one; 0 where there is none.
    fn below(&mut self, limit: usize) -> usize {
        self.state = self
            .state
            .wrapping_mul(1_664_525)
            .wrapping_add(1_013_904_223);
        (self.state / 65_536) as usize % limit.max(1)
    }

    /// One of the first so many items.
    fn one_of(&mut self, items: &[&'static str], limit: usize) -> &'static str {
        match items.get(self.below(limit)) {
            Some(item) => *item,
            None => "",
        }
    }

    /// One of six words.
    fn word(&mut self) -> &'static str {
        self.one_of(&WORDS, 6)
    }
}

/// Adds a text, with a word in place of each `#`.
fn add_words(draft: &mut Draft, dice: &mut Dice, text: &str) {
    for mark in text.chars() {
        match mark {
            '#' => draft.add(dice.word()),
            _ => draft.add_char(mark),
        }
    }
}

/// Adds a type.
fn add_type(draft: &mut Draft, dice: &mut Dice) {
    let text = dice.one_of(&TYPES, 6);
    add_words(draft, dice, text);
}

/// Adds the word of a file's path, or at times of none.
fn add_path(draft: &mut Draft, dice: &mut Dice) {
    draft.add(if dice.below(40) == 0 { "./" } else { "" });
    let files = dice.files;
    draft.add(dice.one_of(&WORDS, files));
}

/// Adds a part of a file.
fn add_part(draft: &mut Draft, dice: &mut Dice) {
    let (outer, inner) = (dice.word(), dice.word());
    for mark in dice.one_of(&PARTS, 13).chars() {
        match mark {
            '^' => draft.add(outer),
            '~' => draft.add(inner),
            '#' => draft.add(dice.word()),
            '@' => add_type(draft, dice),
            '%' => add_path(draft, dice),
            _ => draft.add_char(mark),
        }
    }
}

/// Adds the file with this word.
fn add_file(draft: &mut Draft, dice: &mut Dice, word: &str) {
    draft.add(word);
    draft.add(".proto\nsyntax = \"proto3\";\n");
    let package = dice.one_of(&PACKAGES, 4);
    add_words(draft, dice, package);
    for _ in 0..dice.below(6) {
        add_part(draft, dice);
    }
    draft.add(if dice.below(16) == 0 { "@|" } else { "|" });
}

/// A tree; of each second one the files from a number on are included.
fn tree_of(alloc: Global, seed: u32) -> Made<String> {
    let mut dice = Dice {
        state: seed,
        files: 12,
    };
    dice.files = dice.below(13).max(1);
    let files = dice.files;
    let included = if seed % 2 == 0 { 12 } else { dice.below(files) };
    let mut draft = Draft::new(alloc);
    for (number, word) in WORDS.iter().take(files).enumerate() {
        draft.add(if number < included { "" } else { "+" });
        add_file(&mut draft, &mut dice, *word);
    }
    draft.finish()
}

#[test]
fn generated_trees(rt: HostRuntime) -> Result<(), Fail> {
    for seed in 0..500 {
        let tree = tree_of(rt.alloc(), seed)?;
        see_tree(&rt, rt.alloc(), seed as usize, tree.as_str(), Due::Any)?;
    }
    Ok(())
}
