//! Laws: what the definitions say about an index by options, whatever the code does.

ghost use Rattle.protoscip.specs.Headline.{Headline};
ghost use Rattle.programs.specs.OptionLaws.{HeadlineOfFiles};
ghost use Rattle.programs.specs.Settings.{allowed_by};

use command_line::IndexOptions;
use protoscip::laws_of_names;
use source_files::ReadFiles;

/// The headline for the choices that options allow and the tree of the files that they name, and so for the bytes
/// that `index` writes.
pub fn headline_of_options<F: ReadFiles>(files: &F, options: &IndexOptions)
    ensures choices { Headline (allowed_by options.now) }
    ensures files { HeadlineOfFiles (F.lists files.now) (F.gives files.now) (F.finds files.now) options.now }
{
    laws_of_names();
}
