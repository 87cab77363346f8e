//! The records of an index as messages of `scip.proto`.

use super::details::{
    enclosing_symbol_len, encode_enclosing_symbol, encode_kind, encode_signature, kind_len,
    signature_len,
};
use super::document::DocumentMessage;
use super::fields::{
    encode_int, encode_ref, encode_text, encode_texts, encode_texts_ref, int_len, ref_len,
    text_len, texts_len, texts_ref_len,
};
use super::message::{
    Encode, encode_messages, encode_optional_message, messages_len, optional_message_len,
};
use super::output::Output;
use super::range::{encode_optional_range, encode_range, optional_range_len, range_len};
use super::symbols::{encode_symbol, symbol_len};
use scip_records::{
    Document, Index, InformationRef, Metadata, Occurrence, OccurrenceRef, SymbolInformation,
    ToolInfo,
};

impl Encode for Index {
    ghost use Rattle.scip_wire.specs.Spelling.{index_fields};
    ghost use Rattle.scip_wire.specs.WellFormed.{IsWellFormed};

    ghost fields = { index_fields };

    ghost is_fit = { IsWellFormed };

    fn encoded_len(&self) -> u64 {
        let metadata = optional_message_len(1, &self.metadata);
        let documents = messages_len(2, &self.documents);
        let external_symbols = messages_len(3, &self.external_symbols);
        metadata
            .saturating_add(documents)
            .saturating_add(external_symbols)
    }

    fn encode<W, O: Output<W>>(&self, out: &mut O, sink: &mut W) {
        encode_optional_message(out, sink, 1, &self.metadata);
        encode_messages(out, sink, 2, &self.documents);
        encode_messages(out, sink, 3, &self.external_symbols);
    }
}

impl Encode for Metadata {
    ghost use Rattle.scip_wire.specs.Spelling.{metadata_fields};
    ghost use Rattle.scip_wire.specs.WellFormed.{IsFitMetadata};

    ghost fields = { metadata_fields };

    ghost is_fit = { IsFitMetadata };

    fn encoded_len(&self) -> u64 {
        let version = int_len(1, self.version);
        let tool_info = optional_message_len(2, &self.tool_info);
        let project_root = text_len(3, &self.project_root);
        let encoding = int_len(4, self.text_document_encoding);
        version
            .saturating_add(tool_info)
            .saturating_add(project_root)
            .saturating_add(encoding)
    }

    fn encode<W, O: Output<W>>(&self, out: &mut O, sink: &mut W) {
        encode_int(out, sink, 1, self.version);
        encode_optional_message(out, sink, 2, &self.tool_info);
        encode_text(out, sink, 3, &self.project_root);
        encode_int(out, sink, 4, self.text_document_encoding);
    }
}

impl Encode for ToolInfo {
    ghost use Rattle.scip_wire.specs.Spelling.{tool_info_fields};
    ghost use Rattle.scip_wire.specs.WellFormed.{IsFitToolInfo};

    ghost fields = { tool_info_fields };

    ghost is_fit = { IsFitToolInfo };

    fn encoded_len(&self) -> u64 {
        let name = text_len(1, &self.name);
        let version = text_len(2, &self.version);
        let arguments = texts_len(3, &self.arguments);
        name.saturating_add(version).saturating_add(arguments)
    }

    fn encode<W, O: Output<W>>(&self, out: &mut O, sink: &mut W) {
        encode_text(out, sink, 1, &self.name);
        encode_text(out, sink, 2, &self.version);
        encode_texts(out, sink, 3, &self.arguments);
    }
}

impl Encode for Document {
    ghost use Rattle.scip_wire.specs.Spelling.{document_fields};
    ghost use Rattle.scip_wire.specs.WellFormed.{IsFitDocument};

    ghost fields = { document_fields };

    ghost is_fit = { IsFitDocument };

    fn encoded_len(&self) -> u64 {
        DocumentMessage { document: self }.encoded_len()
    }

    fn encode<W, O: Output<W>>(&self, out: &mut O, sink: &mut W) {
        DocumentMessage { document: self }.encode(out, sink);
    }
}

impl Encode for SymbolInformation {
    ghost use Rattle.scip_wire.specs.Spelling.{info_fields};
    ghost use Rattle.scip_wire.specs.WellFormed.{IsFitInfo};

    ghost fields = { info_fields };

    ghost is_fit = { IsFitInfo };

    fn encoded_len(&self) -> u64 {
        InformationRef::of(self).encoded_len()
    }

    fn encode<W, O: Output<W>>(&self, out: &mut O, sink: &mut W) {
        InformationRef::of(self).encode(out, sink);
    }
}

impl<'a> Encode for InformationRef<'a> {
    ghost use Rattle.scip_wire.specs.Spelling.{info_fields};
    ghost use Rattle.scip_wire.specs.WellFormed.{IsFitInfo};

    ghost fields = { info_fields };

    ghost is_fit = { IsFitInfo };

    fn encoded_len(&self) -> u64 {
        let symbol = symbol_len(1, &self.symbol);
        let documentation = texts_ref_len(3, &self.documentation);
        let kind = kind_len(5, &self.details);
        let display_name = ref_len(6, self.display_name);
        let signature = signature_len(7, &self.details);
        let enclosing_symbol = enclosing_symbol_len(8, &self.details);
        symbol
            .saturating_add(documentation)
            .saturating_add(kind)
            .saturating_add(display_name)
            .saturating_add(signature)
            .saturating_add(enclosing_symbol)
    }

    fn encode<W, O: Output<W>>(&self, out: &mut O, sink: &mut W) {
        encode_symbol(out, sink, 1, &self.symbol);
        encode_texts_ref(out, sink, 3, &self.documentation);
        encode_kind(out, sink, 5, &self.details);
        encode_ref(out, sink, 6, self.display_name);
        encode_signature(out, sink, 7, &self.details);
        encode_enclosing_symbol(out, sink, 8, &self.details);
    }
}

impl Encode for Occurrence {
    ghost use Rattle.scip_wire.specs.Spelling.{occurrence_fields};
    ghost use Rattle.scip_wire.specs.WellFormed.{IsFitOccurrence};

    ghost fields = { occurrence_fields };

    ghost is_fit = { IsFitOccurrence };

    fn encoded_len(&self) -> u64 {
        OccurrenceRef::of(self).encoded_len()
    }

    fn encode<W, O: Output<W>>(&self, out: &mut O, sink: &mut W) {
        OccurrenceRef::of(self).encode(out, sink);
    }
}

impl<'a> Encode for OccurrenceRef<'a> {
    ghost use Rattle.scip_wire.specs.Spelling.{occurrence_fields};
    ghost use Rattle.scip_wire.specs.WellFormed.{IsFitOccurrence};

    ghost fields = { occurrence_fields };

    ghost is_fit = { IsFitOccurrence };

    fn encoded_len(&self) -> u64 {
        let range = range_len(1, &self.range);
        let symbol = symbol_len(2, &self.symbol);
        let roles = int_len(3, self.symbol_roles);
        let enclosing_range = optional_range_len(7, &self.enclosing_range);
        range
            .saturating_add(symbol)
            .saturating_add(roles)
            .saturating_add(enclosing_range)
    }

    fn encode<W, O: Output<W>>(&self, out: &mut O, sink: &mut W) {
        encode_range(out, sink, 1, &self.range);
        encode_symbol(out, sink, 2, &self.symbol);
        encode_int(out, sink, 3, self.symbol_roles);
        encode_optional_range(out, sink, 7, &self.enclosing_range);
    }
}
