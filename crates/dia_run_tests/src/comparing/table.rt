//! Texts and the tables that they are.
//!
//! A row is a text, and what `parse_table` answers: its pairs, each after its word and with a semicolon after it, or
//! `syntax LINE` or `limit LINE`; or `renders TEXT`, where the table is written as that, and read from it again.

use crate::words::same;
use dia_compat::{
    TableFault, one_table, one_table_fault, parse_table, read_tables_are_writable, render_table,
};
use dia_rows::{Names, Row};
use std::alloc::{AllocError, Global};
use std::process::Abort;

const ROWS: &str = r"
# Pairs.
=>
command T = T\navp X = X\n => command T = T;avp X = X;
avp X = Y\r\n\tcommand 3-a = AVP ; of T\r\ncommand T = T;\n\n ; none\navp X = Y => command 3-a = AVP;command T = T;avp X = Y;avp X = Y;
command A = B;x => command A = B;

# The line that is no pair.
command A=B => syntax 1
command A = B = C => syntax 1
command T = T\navp X X => syntax 2
command T = 1 => syntax 1
command T = -a => syntax 1
Command T = T => syntax 1

# No other white space is taken.
command T = T\r => syntax 1
command T =\rT\n => syntax 1
\n\ncommand T = T \r\r\n => syntax 3
\xef\xbb\xbfcommand T = T => syntax 1
avp X = X\xc2\xa0 => syntax 1

let N = n

# What is written, with the commands first.
avp X = Y ; of T\r\n\n\tcommand 3-a = AVP\ncommand T = T\navp X = Y => renders command 3-a = AVP\ncommand T = T\navp X = Y\navp X = Y\n
avp $N*128 = X\ncommand T = $N*128 => renders command T = $N*128\navp $N*128 = X\n
";

/// Texts at the limits.
const LIMITS: &str = r"
# A name has 128 bytes at most.
let N = n
avp $N*128 = $N*128 => avp $N*128 = $N*128;
avp X = X\navp $N*129 = $N*128\navp => limit 2

# A table has 65,536 pairs at most, in one list or in both.
let COMMAND = command T = T\n
let AVP = avp X = X\n
let COMMANDS = command T = T;
let AVPS = avp X = X;
$COMMAND$AVP*65535 => $COMMANDS$AVPS*65535
$COMMAND$AVP*65536 => limit 65537
$COMMAND*65536 => $COMMANDS*65536
$COMMAND*65537 => limit 65537
$AVP*65536 => $AVPS*65536
$AVP*65537 => limit 65537

# The first line that is no pair is the last that a table may have.
$AVP*65535 avp X X => syntax 65536
$COMMAND*65535 command X => syntax 65536

# A text has 33,554,432 bytes at most.
let BLANK = \x20
$BLANK*33554432 =>
$BLANK*33554433 => limit 0
";

#[test]
fn reads_tables(rt: HostRuntime) {
    one_table();
    one_table_fault();
    read_tables_are_writable();
    answers(&rt, ROWS);
    answers(&rt, LIMITS);
}

/// Checks each row of a text.
fn answers(rt: &(impl AllocGlobal + Abort), rows: &str) {
    let mut names = Names::new(rt.alloc());
    for line in rows.lines() {
        if let Some(row) = names.row(line).expect(rt, line) {
            answer(rt, &names, &row);
        }
    }
}

/// Checks the answer to the text of a row.
fn answer(rt: &(impl AllocGlobal + Abort), names: &Names, row: &Row<'_>) {
    let text = names.text(row.call).expect(rt, row.line);
    let text = str::from_utf8(text.as_slice()).expect(rt, row.line);
    let wanted = names.text(row.wanted).expect(rt, row.line);
    let found = if row.wanted.starts_with("renders ") {
        written(rt, text)
    } else {
        read(rt.alloc(), text).expect(rt, "memory")
    };
    same(rt, found.as_bytes(), wanted.as_slice(), row.line);
}

/// The pairs that were read, or the fault.
fn read(alloc: Global, text: &str) -> Result<String, AllocError> {
    let mut pairs = String::new(alloc);
    match parse_table(alloc, text) {
        Ok(table) => {
            push_pairs(&mut pairs, "command ", &table.commands)?;
            push_pairs(&mut pairs, "avp ", &table.avps)?;
        }
        Err(TableFault::Syntax { line }) => write!(pairs, "syntax {line}")?,
        Err(TableFault::Limit { line }) => write!(pairs, "limit {line}")?,
        Err(TableFault::NoMemory) => return Err(AllocError),
    }
    Ok(pairs)
}

/// Pushes pairs of names as text, each after a word.
fn push_pairs(text: &mut String, word: &str, pairs: &[(String, String)]) -> Result<(), AllocError> {
    for (a, b) in pairs {
        write!(text, "{word}{a} = {b};")?;
    }
    Ok(())
}

/// A table as it is written. What is written is read as the table again.
fn written(rt: &(impl AllocGlobal + Abort), text: &str) -> String {
    let table = parse_table(rt.alloc(), text).expect(rt, text);
    let text = render_table(rt.alloc(), &table).expect(rt, text);
    let read = parse_table(rt.alloc(), text.as_str()).expect(rt, "a table");
    assert!(rt; read == table);
    format!(in rt.alloc(); "renders {text}").expect(rt, "memory")
}
