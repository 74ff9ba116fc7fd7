//! Specifications that are printed, read and printed again.

use lola_lexer::cut::tokens;
use lola_parser_declarations::reading::parse;
use lola_parser_grammar::declarations::Ast;
use lola_parser_print::print;
use lola_value::front::FrontEnd;
use lola_value::text::Text;
use std::alloc::Global;

fn read(alloc: Global, text: &[u8]) -> Result<Ast, FrontEnd> {
    let tokens = tokens(alloc, text)?;
    if text.len() > 1_048_576 {
        return Err(FrontEnd::Memory);
    }
    parse(alloc, text, &tokens)
}

/// The text that is printed of what a text spells, or none where it spells nothing or there is no memory.
fn printed(alloc: Global, text: &[u8]) -> Option<Text> {
    let tree = read(alloc, text).ok()?;
    let mut to = Text::from_bytes(alloc, b"").ok()?;
    print(alloc, &tree, &mut to).ok()?;
    Some(to)
}

/// Whether this is printed of a text.
fn is_printed(alloc: Global, text: &[u8], wanted: &[u8]) -> bool {
    match printed(alloc, text) {
        None => false,
        Some(once) => once.as_bytes() == wanted,
    }
}

/// What is printed of a specification, which is printed again of that.
#[test]
fn printed_and_read_again(rt: HostRuntime) {
    let table = [
        (
            "input a: Int64\noutput b: Int64 := a + 1\ntrigger b > 2 \"high\"",
            "input a : Int64 output b : Int64 := a + 1 trigger b > 2 \"high\" ",
        ),
        (
            "input a: Int64\noutput z(p: Int64): Int64 spawn with a eval @a when a == p with z(p).last(or: 0) + 1 close when a == 0",
            "input a : Int64 output z ( p : Int64 ) : Int64 spawn with a eval @ a when a == p with z ( p ) . last ( or : 0 ) + 1 close when a == 0 ",
        ),
        (
            "input dev: String\ninput temp: Int64\ninput hum: Int64\noutput mean: Int64 @1Hz := temp.aggregate(over: 1min, using: avg).defaults(to: 0)\noutput last_hum: Int64 @1Hz := hum.hold(or: 0)\noutput seen(d: String): Int64\n  spawn with dev\n  eval @dev when dev == d with seen(d).last(or: 0) + 1\ntrigger mean >= 224 && last_hum > 90 \"warm and damp\"\n",
            "input dev : String input temp : Int64 input hum : Int64 output mean : Int64 @ 1Hz := temp . aggregate ( over : 1min , using : avg ) . defaults ( to : 0 ) output last_hum : Int64 @ 1Hz := hum . hold ( or : 0 ) output seen ( d : String ) : Int64 spawn with dev eval @ dev when dev == d with seen ( d ) . last ( or : 0 ) + 1 trigger mean >= 224 && last_hum > 90 \"warm and damp\" ",
        ),
    ];
    for (text, wanted) in table {
        assert!(rt; is_printed(rt.alloc(), text.as_bytes(), wanted.as_bytes()));
        assert!(rt; is_printed(rt.alloc(), wanted.as_bytes(), wanted.as_bytes()));
    }
}
