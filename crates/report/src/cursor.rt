ghost use Rattle.std.specs.Prelude.{◌≡◌, ◌≤◌, ◌++◌, length};
ghost use Rattle.report.specs.Puts.{Countable, Puts, Written};
ghost use Rattle.report.specs.Text.{node_count, node_line, node_lines, report_text};

use crate::report::Report;
use itoa::{Buffer, Integer};
use kripke::node::Node;

// Puts a text into given bytes, piece after piece: each piece is counted, and written if it ends within the bytes.
// A `Display` would do it if a write that fails said why: a report may be refused for its size and for nothing else.
#[derive(Drop)]
struct Cursor<'a> {
    out: &'a mut [u8],
    at: usize,
}

impl Cursor<'_> {
    fn put(&mut self, text: &str)
        requires { Countable text.now self.old }
        ensures { Puts text.now self.old self.new }
    {
        let start = self.at;
        self.at += text.len();
        if self.at <= self.out.len() {
            self.out[start..self.at].copy_from_slice(text.as_bytes());
        }
    }

    // A number, and the text after it.
    fn put_field<I: Integer>(&mut self, number: I, after: &str)
        requires { Countable (I.text number ++ after.now) self.old }
        ensures { Puts (I.text number ++ after.now) self.old self.new }
    {
        let mut digits = Buffer::new();
        self.put(digits.format(number));
        self.put(after);
    }

    fn put_line(&mut self, i: usize, node: Node)
        requires { Countable (node_line i node) self.old }
        ensures { Puts (node_line i node) self.old self.new }
    {
        self.put_field(i, " ");
        self.put_field(node.code, " ");
        self.put_field(node.a, " ");
        self.put_field(node.b, "\n");
    }

    fn put_lines(&mut self, nodes: &[Node])
        requires { Countable (node_lines 0 nodes.now) self.old }
        ensures { Puts (node_lines 0 nodes.now) self.old self.new }
    {
        for (i, node) in nodes.iter().enumerate() {
            self.put_line(i, *node);
        }
    }

    fn put_report(&mut self, report: Report)
        requires { Countable (report_text report) self.old }
        ensures { Puts (report_text report.entry) self.old self.new }
    {
        match report {
            Report::Alike { rounds } => {
                self.put("alike ");
                self.put_field(rounds, "\n");
            }
            Report::Different { rounds, nodes } => {
                self.put("differ ");
                self.put_field(rounds, " ");
                self.put_field(nodes.len(), "\n");
                self.put_lines(nodes);
            }
        }
    }
}

// Answers the length of the report's text, and writes it from the start of the bytes if it fits.
pub(crate) fn write_text(report: Report, out: &mut [u8]) -> usize
    requires { node_count report ≤ 2045 }
    ensures long { result ≡ length (report_text report.entry) }
    ensures written { result ≤ length out.old → Written (report_text report.entry) out.old result out.new }
{
    let mut cursor = Cursor { out, at: 0 };
    cursor.put_report(report);
    cursor.at
}
