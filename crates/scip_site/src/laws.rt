//! Laws of the places of pages, and of what all pages share, each the contract of a function that does nothing.

ghost use Rattle.scip_site.specs.Laws.{
  HasAGoodPath,
  HasItsOwnPath,
  FoldersHavePlaces,
  FoldersHaveTheirOwnIds,
  TreeShowsFolders,
};
ghost use Rattle.scip_site.specs.SharedLaws.{StyleAsks, StyleIsAlone, ScriptIsAlone, ScriptMakesNoMarks};

/// If the path of a document leads below a folder, its page is below the folder of all pages, at a place of its own.
pub fn pages_have_their_own_places()
    ensures good { HasAGoodPath }
    ensures own { HasItsOwnPath }
{}

/// The first page has a place for each folder on the way to a document, with an id of its own.
pub fn folders_have_places()
    ensures places { FoldersHavePlaces }
    ensures own { FoldersHaveTheirOwnIds }
{}

/// In the tree of the first page the link to a document's page is in the folders on the document's path, and all
/// folders end.
pub fn trees_show_folders()
    ensures { TreeShowsFolders }
{}

/// The style sheet asks for the system's light or dark setting and for the window's width, and names no other file. The
/// script asks nobody for anything, and makes no marks or scripts of texts. (By the words of the standards for that.)
pub fn shared_files_are_alone()
    ensures asks { StyleAsks }
    ensures style { StyleIsAlone }
    ensures script { ScriptIsAlone }
    ensures marks { ScriptMakesNoMarks }
{}
