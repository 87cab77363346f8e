//! Laws of the crate, each the contract of a function that does nothing.

ghost use Rattle.scip_pages.specs.PageLaws.{
  HasTheSource,
  LeadsToAPage,
  LeadsIfDefined,
  LinksLead,
  UsesLead,
  DefinitionsLead,
  HaveTheirOwnIds,
  EachUrlLeads,
};

/// The code of a page, without its marks and with its references undone, is the source, byte for byte, but that the
/// picture of a NUL stands for a NUL.
pub fn pages_have_their_source()
    ensures { HasTheSource }
{}

/// A use leads to a definition of its symbol, in a document that has a page, if there is one.
pub fn uses_lead_to_definitions()
    ensures leads { LeadsToAPage }
    ensures defined { LeadsIfDefined }
{}

/// The URL of each occurrence, of each use that is listed, and of each definition that is, leads to a place that is on
/// a page, if all ranges of documents that have a page are ranges of their sources. No two lines, and no two
/// definitions, have one id.
pub fn links_lead_to_places()
    ensures links { LinksLead }
    ensures uses { UsesLead }
    ensures definitions { DefinitionsLead }
    ensures own { HaveTheirOwnIds }
{}

/// Each URL that stands in the text of a page is one of these, that of the style sheet or of the first page, or that of
/// a folder on the way to the document.
pub fn urls_are_those_of_links()
    ensures { EachUrlLeads }
{}
