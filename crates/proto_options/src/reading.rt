//! From tokens and their tree to the options of the file.

ghost use Rattle.std.specs.Prelude.{◌≡◌, List, IfOk, IfErr, MatchResult};
ghost use Rattle.proto_grammar.specs.declared.dialect.Dialect.TheVariants.{All};
ghost use Rattle.proto_grammar.specs.declared.fault.SyntaxFault.TheVariants.{Memory};
ghost use Rattle.proto_parse.specs.Derives.{Derives};
ghost use Rattle.proto_decl.specs.Declares.{package_scope};
ghost use Rattle.proto_options.specs.declared.options.FileOption.{FileOption};
ghost use Rattle.proto_options.specs.Options.{AreOptionsOf};

use crate::cursor::Cursor;
use crate::options::FileOption;
use crate::scope::OptionScope;
use crate::walk::file_options;
use basics::{OwnedText, Sequence};
use proto_grammar::SyntaxFault;
use proto_lex::Tokens;
use proto_parse::{File, MAX_MESSAGE_DEPTH};
use std::alloc::Global;

/// The options of a file, in order of place, whose tree these tokens derive if all sources are accepted.
/// `package_name` is the full name of its package, which is empty if it has none.
///
/// What is in braces as a value is read as a message of the text format, with at most [`MAX_AGGREGATE_DEPTH`] braces
/// inside one another. What is no part of one, or deeper, is read past, and nothing in it is named: the other names are
/// as they are. So the only fault is Memory.
///
/// [`MAX_AGGREGATE_DEPTH`]: crate::MAX_AGGREGATE_DEPTH
pub fn options_of(
    alloc: Global,
    lexed: &Tokens<'_, '_>,
    file: &File,
    package_name: &str,
) -> Result<Sequence<FileOption>, SyntaxFault>
    requires derives { Derives All lexed.now.text lexed.now.tokens file.now }
    requires packaged { package_name.now ≡ package_scope lexed.now.text file.now }
    ensures found { IfOk result (AreOptionsOf All lexed.now file.now) }
    ensures only { (options : List FileOption) → AreOptionsOf All lexed.now file.now options
        → MatchResult result (λ found. found ≡ options) (λ fault. fault ≡ Memory) }
    ensures memory { IfErr result (λ fault. fault ≡ Memory) }
{
    let scope = OptionScope::of(alloc, OwnedText::copy_of(alloc, package_name)?)?;
    file_options(&mut Cursor::new(lexed), alloc, MAX_MESSAGE_DEPTH, &scope)
}
