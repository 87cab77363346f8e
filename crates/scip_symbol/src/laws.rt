//! Laws of symbols, each the contract of a function that does nothing.

ghost use Rattle.std.specs.Prelude.{◌≡◌, ℕ, List};
ghost use Rattle.scip_symbol.specs.Parts.{IsSymbol};
ghost use Rattle.scip_symbol.specs.SpellsSymbol.{SpellsSymbol};
ghost use Rattle.scip_symbol.specs.SymbolText.{symbol_text};
ghost use Rattle.scip_symbol.specs.declared.symbol.SymbolParts.{SymbolParts};
ghost use Rattle.scip_symbol.specs.Package.{Package, IsPackage};
ghost use Rattle.scip_symbol.specs.Entities.{Entity, IsEntity, symbol_in};
ghost use Rattle.scip_symbol.specs.OneEntity.{IsWithoutClash, IsAmong, declarations_of, AreWithoutClash};
ghost use Rattle.proto_decl.specs.Facts.{Facts};

/// A text spells at most one symbol.
pub fn text_spells_one_symbol()
    ensures { (text : List ℕ) (symbol other : SymbolParts)
        → SpellsSymbol text symbol → SpellsSymbol text other → symbol ≡ other }
{}

/// Parts have a spelling if and only if they are those of a symbol; the printed text is one.
pub fn symbols_have_spellings()
    ensures only { (text : List ℕ) (symbol : SymbolParts) → SpellsSymbol text symbol → IsSymbol symbol }
    ensures printed { (symbol : SymbolParts) → IsSymbol symbol → SpellsSymbol (symbol_text symbol) symbol }
{}

/// In facts without a clash, entities whose symbols have one text are one entity.
pub fn symbols_name_one_entity()
    ensures { (id : Package) (declarations : List Entity) → IsPackage id → IsWithoutClash declarations
        → (entity other : Entity) → IsEntity entity → IsEntity other
        → IsAmong declarations entity → IsAmong declarations other
        → symbol_text (symbol_in id entity) ≡ symbol_text (symbol_in id other) → entity ≡ other }
{}

/// The declarations of files in whose facts a full name is that of one declaration are without a
/// clash.
pub fn files_are_without_clash()
    ensures { (files : List Facts) → AreWithoutClash files → IsWithoutClash (declarations_of files) }
{}
