//! Laws of a folder of pages, each the contract of a function that does nothing.

ghost use Rattle.scip_site.specs.FolderLaws.{
  ReadsAreGood,
  GoodSourcesFit,
  FilesStayBelow,
  FilesAreNoFolders,
  PagesAreMadeOnce,
  QuotesShowTheText,
  QuotesEndNothing,
};
ghost use Rattle.scip_site.specs.UrlLaws.{PageUrlsLead, FirstUrlsLead, ListedUrlsLead};

use source_files::ReadFiles;

/// A document that has a page has a path without a fault that is no other's before it, and ranges of its source.
pub fn documents_with_pages_are_good<F: ReadFiles>(files: &F)
    ensures { ReadsAreGood (F.gives files.now) }
{}

/// Ranges of documents that have pages are ranges of their sources, so that links lead to places; all files are below
/// the folder of all pages; none is where another has a folder; no page is made twice.
pub fn folders_have_their_pages()
    ensures fit { GoodSourcesFit }
    ensures below { FilesStayBelow }
    ensures apart { FilesAreNoFolders }
    ensures once { PagesAreMadeOnce }
{}

/// What a reader of scripts makes of a text between quotes is the text, and nothing in it ends the text, its line, or a
/// script in a page.
pub fn quotes_show_the_text()
    ensures text { QuotesShowTheText }
    ensures end { QuotesEndNothing }
{}

/// Each URL that stands in a page, in the first page, or in the list of symbols leads to a file that is made, and if it
/// has a fragment to an element of the file.
pub fn urls_lead_to_files()
    ensures pages { PageUrlsLead }
    ensures first { FirstUrlsLead }
    ensures listed { ListedUrlsLead }
{}
