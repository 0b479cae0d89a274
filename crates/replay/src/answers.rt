// Answers in the oracle's format: a letter, the values, and both counts.
ghost use Rattle.std.specs.Prelude.{OnOk};
ghost use Rattle.std.specs.Io.KnownBytes.{Appends};
ghost use Rattle.replay.specs.Showing.{answer_text, opened_text, said_text, ended_text};

use call_rules::{Answer, Refusal};
use std::io;
use std::io::Write;

// What a line of the list has written: the answer of a call on a store, or of an accepted `new`, each with the counts of both nodes.
#[derive(Clone, Copy)]
pub enum Said {
    Answer(Result<Answer, Refusal>, u32, u32),
    Opened(u32, u32),
}

// The answer of a call on a store, and the counts of relation nodes and of set nodes.
pub fn write<W: Write>(
    out: &mut W,
    answer: Result<Answer, Refusal>,
    n: u32,
    m: u32,
) -> io::Result<()>
    ensures { OnOk result (Appends (W.contents out.old) (W.contents out.new) (answer_text answer n m)) }
{
    match answer {
        Ok(Answer::Handle(h)) => writeln!(out, "h {h} {n} {m}"),
        Ok(Answer::Truth(b)) => writeln!(out, "b {} {n} {m}", u32::from(b)),
        Ok(Answer::SetNode(x0, x1)) => writeln!(out, "c {x0} {x1} {n} {m}"),
        Ok(Answer::RelationNode(x00, x01, x10, x11)) => {
            writeln!(out, "c {x00} {x01} {x10} {x11} {n} {m}")
        }
        Ok(Answer::Pair(x, y)) => writeln!(out, "p {x} {y} {n} {m}"),
        Ok(Answer::Nothing) => writeln!(out, "n {n} {m}"),
        Ok(Answer::Member(x)) => writeln!(out, "m {x} {n} {m}"),
        Err(refusal) => writeln!(out, "r {} {n} {m}", u32::from(refusal)),
    }
}

// The answer of an accepted `new`.
pub fn opened<W: Write>(out: &mut W, n: u32, m: u32) -> io::Result<()>
    ensures { OnOk result (Appends (W.contents out.old) (W.contents out.new) (opened_text n m)) }
{
    writeln!(out, "o {n} {m}")
}

// What a line of the list has written.
pub fn tell<W: Write>(out: &mut W, said: Said) -> io::Result<()>
    ensures { OnOk result (Appends (W.contents out.old) (W.contents out.new) (said_text said)) }
{
    match said {
        Said::Answer(a, n, m) => write(out, a, n, m),
        Said::Opened(n, m) => opened(out, n, m),
    }
}

// That the replay ends before this line, from 1.
pub fn ended<W: Write>(out: &mut W, line: usize) -> io::Result<()>
    ensures { OnOk result (Appends (W.contents out.old) (W.contents out.new) (ended_text line)) }
{
    writeln!(out, "no call in line {line}")
}
