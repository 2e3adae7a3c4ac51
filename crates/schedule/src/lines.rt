// What a run writes and returns: the report space that it is lent, with how far it has come; the line of each record's answer (SPECIFICATION 10.2,
// 10.3); and the ways in which a run ends (SPECIFICATION 10.4).

ghost use Rattle.std.specs.Prelude.{◌≡◌, ◌+◌, ◌-◌, ◌≤◌, ◌<◌, ◌∷◌, ◌++◌, [], length};
ghost use Rattle.pool.specs.Schedule.{decimal, ends};
ghost use Rattle.answers.specs.Numbers.{refusal_number, refused_by};
ghost use Rattle.schedule.specs.Rest.{answer_line, end_after, report_after, stopped};

use answers::Refusal;
use pool::{Answer, Ended};

/// The bytes of the longest line: a record's number has at most 4 digits, a client and a code at most 3 each, a value at most 10, and a byte follows
/// each of them.
pub const LINE: usize = 24;

/// The report of a run under way.
#[derive(Drop)]
pub struct Report<'a> {
    /// The report space. What stands after the bytes that are written stays as it was.
    pub space: &'a mut [u8],
    /// How many records are done, which is the next one's number.
    pub records: u32,
    /// How many bytes of the space are written.
    pub bytes: usize,
    pub ghost within: { bytes ≤ length space.now },
}

impl Report<'_> {
    ghost use Rattle.schedule.specs.Reports.{Wrote};

    /// How many bytes of the space are not yet written.
    pub fn left(&self) -> usize
        ensures { result ≡ length self.now.space.now - self.now.bytes }
    {
        self.space.len() - self.bytes
    }

    fn put(&mut self, text: &[u8])
        requires { self.old.bytes + length text.now ≤ length self.old.space.now }
        ensures written { Wrote text.now self.old self.new }
        ensures records { self.new.records ≡ self.old.records }
    {
        let end = self.bytes + text.len();
        self.space[self.bytes..end].copy_from_slice(text);
        self.bytes = end;
    }

    /// A number in decimal (SPECIFICATION 10.2). Most of them are short, and the four cases below 10,000 stand for themselves because they are faster:
    /// 6 ns where `itoa` takes 11, of the 31 ns of a record.
    fn decimal(&mut self, v: u32)
        requires { self.old.bytes + length (decimal v) ≤ length self.old.space.now }
        ensures written { Wrote (decimal v) self.old self.new }
        ensures records { self.new.records ≡ self.old.records }
    {
        if v < 10 {
            self.put(&[digit(v)]);
        } else if v < 100 {
            self.put(&[digit(v / 10), digit(v % 10)]);
        } else if v < 1000 {
            self.put(&[digit(v / 100), digit(v / 10 % 10), digit(v % 10)]);
        } else if v < 10000 {
            self.put(&[
                digit(v / 1000),
                digit(v / 100 % 10),
                digit(v / 10 % 10),
                digit(v % 10),
            ]);
        } else {
            let mut buffer = itoa::Buffer::new();
            self.put(buffer.format(v).as_bytes());
        }
    }

    /// A number with the byte that follows it.
    fn field(&mut self, v: u32, after: u8)
        requires { self.old.bytes + length (decimal v) < length self.old.space.now }
        ensures written { Wrote (decimal v ++ after ∷ []) self.old self.new }
        ensures count { self.new.bytes ≡ self.old.bytes + length (decimal v) + 1 }
        ensures records { self.new.records ≡ self.old.records }
    {
        self.decimal(v);
        self.put(&[after]);
    }

    /// The next record's line.
    fn line(&mut self, client: u8, answer: Answer)
        requires room { self.old.bytes + 24 ≤ length self.old.space.now }
        requires few { self.old.records ≤ 9999 }
        ensures written { Wrote (answer_line self.old.records client answer) self.old self.new }
        ensures bound { self.new.bytes ≤ self.old.bytes + 24 }
        ensures records { self.new.records ≡ self.old.records }
    {
        let record = self.records;
        self.field(record, b' ');
        self.field(u32::from(client), b' ');
        self.field(answers::code_of(answer), b' ');
        self.field(answers::value_of(answer), b'\n');
    }

    /// A record that does not end the run: its line, and it is done.
    pub fn answer(&mut self, client: u8, answer: Answer)
        requires room { self.old.bytes + 24 ≤ length self.old.space.now }
        requires few { self.old.records ≤ 9999 }
        ensures answered { Wrote (answer_line self.old.records client answer) self.old self.new }
        ensures bound { self.new.bytes ≤ self.old.bytes + 24 }
        ensures records { self.new.records ≡ self.old.records + 1 }
    {
        self.line(client, answer);
        self.records += 1;
    }

    /// A record ends the run by a refusal; its line names client 0.
    #[tactic(auto, unfolding(crate::specs::Rest::end_after, crate::specs::Rest::report_after, pool::specs::Answers::code_of, pool::specs::Answers::value_of))]
    pub fn stop(&mut self, refusal: Refusal) -> Ended
        requires room { self.old.bytes + 24 ≤ length self.old.space.now }
        requires few { self.old.records ≤ 9999 }
        ensures loan { self.new.space.ghost_name ≡ self.old.space.ghost_name }
        ensures ended { result ≡ end_after self.old.bytes (stopped self.old.records (refusal_number refusal)) }
        ensures report { self.new.space.now ≡ report_after self.old.bytes (stopped self.old.records (refusal_number refusal)) self.old.space.now }
    {
        self.line(0, refusal.into());
        self.end(Err(refusal))
    }

    /// The run ends without a line.
    #[tactic(auto, unfolding(crate::specs::Rest::end_after))]
    pub fn end(&self, outcome: Result<(), Refusal>) -> Ended
        ensures { result ≡ end_after self.now.bytes (ends self.now.records (refused_by outcome)) }
    {
        Ended {
            records: self.records,
            bytes: self.bytes,
            refusal: match outcome {
                Ok(()) => 0,
                Err(refusal) => refusal.number(),
            },
        }
    }
}

fn digit(n: u32) -> u8
    requires { n < 10 }
    ensures { result ≡ 48 + n }
{
    b'0' + n as u8
}
