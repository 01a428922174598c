ghost use Rattle.std.specs.Prelude.{◌≤◌, ◌<◌, length};
ghost use Rattle.dpl_limits.specs.declared.TheConstants.{MOST_LAYOUT_BYTES};

use dpl_lex::types::Commands;
use dpl_lex::{Ending, Lexer, Name, Num, Numbers, Span, commands};
use std::alloc::{AllocError, Global};
use std::process::Abort;
use std::test::Fail;

/// The commands of a text, whole where the size is 0, and else fed in pieces of this size.
fn cut(alloc: Global, text: &[u8], size: usize) -> Result<Commands, Fail> {
    if text.len() > 10_000 {
        return Err("too long")?;
    }
    let found = if size == 0 {
        commands(alloc, text)?
    } else {
        fed_in(alloc, text, size)?
    };
    Ok(found)
}

/// How many commands there are, and how the text ends.
fn counted(alloc: Global, text: &[u8], size: usize) -> Result<(usize, Ending), Fail> {
    let found = cut(alloc, text, size)?;
    Ok((found.spans.as_slice().len(), found.ending))
}

/// Compares the places of all commands.
fn compare_spans<R: Abort>(
    rt: &R,
    alloc: Global,
    text: &[u8],
    size: usize,
    wanted: &[Span],
) -> Result<(), Fail> {
    let found = cut(alloc, text, size)?;
    assert_eq!(rt; found.spans.as_slice(), wanted);
    Ok(())
}

#[test]
fn commands_are_cut(rt: HostRuntime) -> Result<(), Fail> {
    let text = b"a(b (c; d) e) ;9 x(;;L M;\n E;B";
    let spans = [
        Span { start: 1, end: 14 },
        Span { start: 15, end: 19 },
        Span { start: 20, end: 20 },
        Span { start: 21, end: 24 },
    ];
    compare_spans(&rt, rt.alloc(), text, 0, &spans)?;
    assert_eq!(rt; counted(rt.alloc(), text, 0)?, (4, Ending::End));
    let open = b"L M; (open; E";
    assert_eq!(rt; counted(rt.alloc(), open, 0)?, (1, Ending::Paren));
    Ok(())
}

#[test]
fn integers_and_names(rt: HostRuntime) -> Result<(), Fail> {
    let mut numbers = Numbers::new(b" 40,4X-7-00000000000000000001 1000000000001 -");
    assert_eq!(rt; numbers.unsigned(), Num::Value(40));
    assert_eq!(rt; numbers.signed(), Num::Value(4));
    assert_eq!(rt; numbers.unsigned(), Num::Nothing);
    assert_eq!(rt; numbers.signed(), Num::Value(-7));
    assert_eq!(rt; numbers.signed(), Num::Value(-1));
    assert_eq!(rt; numbers.signed(), Num::Big);
    assert_eq!(rt; numbers.rest(), b" -".as_slice());
    let name = Name::new(b"M1").ok_or("no name")?;
    assert_eq!(rt; name.bytes(), b"M1".as_slice());
    assert!(rt; Name::new(b"m").is_none());
    Ok(())
}

// A block of wires in two definitions, under a comment with a comment in it.
const BLOCK: &[u8] = b"(made by a layout editor (with a nested remark; and a semicolon));
DS 1 25 2;
9 wire;
L M;
B 40,4 20,2;
94 a 20 2 M;
DF;
DS 2 25 2;
9 five;
C 1; C 1 T 48,0; C 1 T 96,0; C 1 T 144,0; C 1 T 192,0;
DF;
L P;
W 10 0,0 300,300;
L M;
C 2 T 0,0; C 2 T 0,500;
B 200,50 550,-75;
E
";

/// The commands of a text that is fed in pieces of this size.
fn fed_in(alloc: Global, text: &[u8], size: usize) -> Result<Commands, AllocError>
    requires some { 0 < size }
    requires short { length text.now ≤ MOST_LAYOUT_BYTES }
{
    let mut lexer = Lexer::new(alloc);
    let mut rest = text;
    'pieces: while !rest.is_empty() {
        let (piece, others) = rest.split_at(size.min(rest.len()));
        lexer.feed(piece)?;
        rest = others;
    }
    Ok(lexer.finish().commands)
}

/// Compares the commands of a text that is fed in pieces with those of the whole text.
fn compare_fed<R: Abort>(rt: &R, alloc: Global, text: &[u8], size: usize) -> Result<(), Fail> {
    let whole = cut(alloc, text, 0)?;
    compare_spans(rt, alloc, text, size, whole.spans.as_slice())
}

#[test]
fn pieces_of_any_size_give_the_same(rt: HostRuntime) -> Result<(), Fail> {
    assert_eq!(rt; counted(rt.alloc(), BLOCK, 0)?, (21, Ending::End));
    compare_fed(&rt, rt.alloc(), BLOCK, 1)?;
    assert_eq!(rt; counted(rt.alloc(), BLOCK, 1)?, (21, Ending::End));
    compare_fed(&rt, rt.alloc(), BLOCK, 7)?;
    assert_eq!(rt; counted(rt.alloc(), BLOCK, 7)?, (21, Ending::End));
    Ok(())
}

/// Compares the commands of two pieces, and how they end.
fn compare_two<R: Abort>(
    rt: &R,
    alloc: Global,
    pieces: (&[u8], &[u8]),
    wanted: &[Span],
    ending: Ending,
) -> Result<(), Fail> {
    if pieces.0.len() > 10_000 {
        return Err("too long")?;
    }
    if pieces.1.len() > 10_000 {
        return Err("too long")?;
    }
    let mut lexer = Lexer::new(alloc);
    lexer.feed(pieces.0)?;
    lexer.feed(pieces.1)?;
    let found = lexer.finish().commands;
    assert_eq!(rt; found.spans.as_slice(), wanted);
    assert_eq!(rt; found.ending, ending);
    Ok(())
}

#[test]
fn pieces_cut_comments_and_commands(rt: HostRuntime) -> Result<(), Fail> {
    let comment = [Span { start: 0, end: 5 }];
    compare_two(&rt, rt.alloc(), (b"(a", b";b);E"), &comment, Ending::End)?;
    let command = [Span { start: 0, end: 3 }];
    compare_two(&rt, rt.alloc(), (b"L M", b";B 1"), &command, Ending::NoEnd)?;
    compare_two(&rt, rt.alloc(), (b"E", b";L M;"), &[], Ending::End)
}
