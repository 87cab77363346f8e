//! The laws.

ghost use Rattle.proto_options.specs.Laws as laws;

use proto_parse::{spans_in_order, spans_of_tokens};

/// A file has a list of options, whatever is in braces as their values.
pub fn each_file_has_options()
    ensures { laws.EachFileHasOptions }
{}

/// A file has one list of options at most.
pub fn one_list_of_options()
    ensures { laws.OneListOfOptions }
{}

/// The fields of a file, as `fields_of` gives them, start one behind the other.
pub fn fields_stand_in_order()
    ensures { laws.FieldsStandInOrder }
{
    spans_of_tokens();
    spans_in_order();
}
