// What the lines of a schedule do, one after another.
ghost use Rattle.std.specs.Prelude.{◌≡◌, ◌≢◌, ◌<◌, true, None, Some, IfSome, IfOk, MatchOption};
ghost use Rattle.bq_model.specs.NoShut.{NoShut};
ghost use Rattle.text_lines.specs.Refusals.{ReadsPart};
ghost use Rattle.trace_text.specs.Shapes.{shape_with};
ghost use Rattle.trace_text.specs.ScheduleText.{shape_of, shape_in, caller_of, is_op_word, op_of, op_words_of, ops_of, is_startable};

use crate::kinds::is_kind;
use crate::play::Play;
use bq_model::{Op, Ops, Shape, TextCause};
use std::alloc::Global;
use std::marker::Model;
use text_lines::{LineReader, LineRefused, Words, number};

const BAD_WORD: LineRefused = LineRefused::Cause(TextCause::BadWord);

const BAD_NUMBER: LineRefused = LineRefused::Cause(TextCause::BadNumber);

/// No number of callers, of a batch or of a room is higher.
const MOST: u64 = 256;

/// The machine, once its shape was read.
#[derive(Drop)]
pub(crate) struct Player {
    alloc: Global,
    play: Option<Play>,
}

impl Model for Player {
    ghost use Rattle.std.specs.Prelude.{Option};
    ghost use Rattle.trace_text.specs.Played.{Playing};

    ghost Value = { Option Playing };

    ghost view = { λ p. p.play };
}

impl LineReader for Player {
    ghost use Rattle.trace_text.specs.ScheduleText.{play_meaning};

    ghost meaning = { play_meaning };

    fn line(&mut self, _number: u32, words: Words) -> Result<(), LineRefused> {
        let play = match self.play.take() {
            Some(mut play) => {
                play.command(self.alloc, words)?;
                play
            }
            None => match read_shape(words) {
                Ok(shape) => Play::open(self.alloc, &shape)?,
                Err(cause) => return Err(LineRefused::Cause(cause)),
            },
        };
        self.play = Some(play);
        Ok(())
    }
}

impl Player {
    /// Before the first line.
    pub(crate) fn new(alloc: Global) -> Self
        ensures { result ≡ None }
    {
        Player { alloc, play: None }
    }

    /// The machine, if there is one.
    pub(crate) fn play(&self) -> Option<&Play>
        ensures { MatchOption result (self.now ≡ None) (λ play. self.now ≡ Some play.now) }
    {
        self.play.as_ref()
    }
}

impl Play {
    ghost use Rattle.text_lines.specs.Refusals.{ReadsLine};
    ghost use Rattle.trace_text.specs.ScheduleText.{command_in, start_in, step_in, until_in, finish_in};

    /// Does what a line says.
    fn command(&mut self, alloc: Global, mut words: Words) -> Result<(), LineRefused>
        ensures { ReadsLine (command_in self.old words.entry) result self.new }
    {
        let Some(word) = words.next() else {
            return Err(BAD_WORD);
        };
        if word == b"start".as_slice() {
            self.start(alloc, words)
        } else if word == b"step".as_slice() {
            self.step_line(words)
        } else if word == b"until".as_slice() {
            self.until(words)
        } else if word == b"finish".as_slice() {
            self.finish(words)
        } else {
            Err(BAD_WORD)
        }
    }

    fn start(&mut self, alloc: Global, mut words: Words) -> Result<(), LineRefused>
        ensures { ReadsLine (start_in self.old words.entry) result self.new }
    {
        let Some(caller) = words.next() else {
            return Err(BAD_WORD);
        };
        let ops = read_ops(alloc, words)?;
        match self.caller(caller) {
            Some(caller) => self.begin(caller, ops),
            None => Err(BAD_NUMBER),
        }
    }

    fn step_line(&mut self, mut words: Words) -> Result<(), LineRefused>
        ensures { ReadsLine (step_in self.old words.entry) result self.new }
    {
        let (Some(caller), Some(limit), None) = (words.next(), words.next(), words.next()) else {
            return Err(BAD_WORD);
        };
        let Some(limit) = number(limit) else {
            return Err(BAD_NUMBER);
        };
        match self.caller(caller) {
            Some(caller) => self.run(b"", limit, caller),
            None => Err(BAD_NUMBER),
        }
    }

    fn until(&mut self, mut words: Words) -> Result<(), LineRefused>
        ensures { ReadsLine (until_in self.old words.entry) result self.new }
    {
        let (Some(caller), Some(kind), None) = (words.next(), words.next(), words.next()) else {
            return Err(BAD_WORD);
        };
        if !is_kind(kind) {
            return Err(BAD_WORD);
        }
        match self.caller(caller) {
            Some(caller) => self.run(kind, u64::MAX, caller),
            None => Err(BAD_NUMBER),
        }
    }

    fn finish(&mut self, mut words: Words) -> Result<(), LineRefused>
        ensures { ReadsLine (finish_in self.old words.entry) result self.new }
    {
        let (Some(caller), None) = (words.next(), words.next()) else {
            return Err(BAD_WORD);
        };
        match self.caller(caller) {
            Some(caller) => self.run(b"", u64::MAX, caller),
            None => Err(BAD_NUMBER),
        }
    }

    // The caller of the lane that a word names.
    fn caller(&self, word: &[u8]) -> Option<u32>
        ensures caller { result ≡ caller_of self.now.shape word.now }
        ensures known { IfSome result (λ caller. caller < self.now.shape.callers) }
    {
        match number(word) {
            Some(caller) if caller < u64::from(self.callers()) => Some(caller as u32),
            _ => None,
        }
    }
}

// The shape behind the word `shape`.
fn read_shape(mut words: Words) -> Result<Shape, TextCause>
    ensures { result ≡ shape_in words.entry }
{
    let (Some(word), Some(callers), Some(batch), Some(room), Some(allowance), Some(first), None) = (
        words.next(),
        words.next(),
        words.next(),
        words.next(),
        words.next(),
        words.next(),
        words.next(),
    ) else {
        return Err(TextCause::BadWord);
    };
    if word != b"shape".as_slice() {
        return Err(TextCause::BadWord);
    }
    match shape(callers, batch, room, allowance, first) {
        Some(shape) => Ok(shape),
        None => Err(TextCause::BadNumber),
    }
}

fn shape(callers: &[u8], batch: &[u8], room: &[u8], allowance: &[u8], first: &[u8]) -> Option<Shape>
    ensures { result ≡ shape_of callers.now batch.now room.now allowance.now first.now }
{
    let callers = number(callers)?;
    let batch = number(batch)?;
    let room = number(room)?;
    let allowance = number(allowance)?;
    let first = number(first)?;
    shape_with(callers, batch, room, allowance, first)
}

fn shape_with(callers: u64, batch: u64, room: u64, allowance: u64, first: u64) -> Option<Shape>
    ensures { result ≡ shape_with callers batch room allowance first }
{
    if callers > MOST || batch > MOST || room > MOST {
        return None;
    }
    Shape::new(callers as u32, batch as u32, room as u32, allowance, first)
}

// The operations of a command, at least one.
fn read_ops(alloc: Global, words: Words) -> Result<Ops, LineRefused>
    ensures ops { ReadsPart (ops_of words.entry) result }
    ensures startable { IfOk result (λ ops. is_startable ops ≡ true) }
    ensures no_shut { IfOk result (λ ops. NoShut ops) }
{
    let ops = read_op_words(alloc, words)?;
    if ops.len() == 0 {
        return Err(BAD_WORD);
    }
    Ok(ops)
}

// A wrong letter comes before a wrong number.
fn read_op_words(alloc: Global, words: Words) -> Result<Ops, LineRefused>
    ensures ops { ReadsPart (op_words_of words.entry) result }
    ensures no_shut { IfOk result (λ ops. NoShut ops) }
{
    let mut ops = Ops::new(alloc);
    let mut right = true;
    for word in words {
        if !is_op_word(word) {
            return Err(BAD_WORD);
        }
        match read_op(word) {
            Some(op) => ops.push(op)?,
            None => right = false,
        }
    }
    if !right {
        return Err(BAD_NUMBER);
    }
    Ok(ops)
}

fn is_op_word(word: &[u8]) -> bool
    ensures { result ≡ is_op_word word.now }
{
    word.first() == Some(&b'e') || word == b"d".as_slice()
}

fn read_op(word: &[u8]) -> Option<Op>
    ensures op { result ≡ op_of word.now }
    ensures no_shut { IfSome result (λ op. op ≢ Op.Shut) }
{
    let [letter, rest @ ..] = word else {
        return None;
    };
    if *letter != b'e' {
        return Some(Op::Deq);
    }
    let v = number(rest)?;
    Some(Op::Enq(v))
}
