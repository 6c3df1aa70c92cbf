ghost use Rattle.std.specs.Prelude.{◌≡◌, ℕ, ◌+◌, ◌^◌, ◌<◌, ◌≤◌, length};
ghost use Rattle.reader.specs.Phrases.{Form, Owes};
ghost use Rattle.reader.specs.Reading.{Laying, Parsed, Pushed, ahead};
ghost use Rattle.reader.specs.Tokens.{kinds};

use crate::LEVELS;
use crate::cursor::Cursor;
use crate::head::Head;
use kripke::node::Node;
use kripke::operator::Operator;
use kripke::refusal::Refusal;

// A text that is read as a formula on so many questions, the places for its nodes, and how many have been made,
// which may be more than there are places: the first pass has none, and only counts.
#[derive(Drop)]
pub(crate) struct Reader<'a> {
    cursor: Cursor<'a>,
    questions: usize,
    places: &'a mut [Node],
    count: usize,
}

impl<'a> Reader<'a> {
    // One more node, written if there is a place for it; its number.
    fn push(&mut self, node: Node) -> u16
        requires { self.old.count < 2 ^ 16 }
        ensures pushed { Pushed self.old.count self.old.places.now node result self.new.count self.new.places.now }
        ensures same_cursor { self.new.cursor ≡ self.old.cursor }
        ensures same_questions { self.new.questions ≡ self.old.questions }
        ensures same_places { self.new.places.ghost_name ≡ self.old.places.ghost_name }
    {
        let number = self.count;
        if number < self.places.len() {
            self.places[number] = node;
        }
        self.count += 1;
        number as u16
    }

    // A formula of so many levels at most: its nodes are made in order, and the number of its own, the last, is given.
    fn formula(&mut self, levels: u8) -> Result<u16, Refusal>
        requires shallow { levels ≤ 64 }
        requires room { self.old.count + length (kinds (ahead self.old.cursor)) ≤ 4097 }
        ensures same_questions { self.new.questions ≡ self.old.questions }
        ensures same_places { self.new.places.ghost_name ≡ self.old.places.ghost_name }
        ensures owes { (l : ℕ) → l + levels ≡ 65 → Owes (Form l) (λ f own. Laying self.old.count self.old.places.now f own self.new.count self.new.places.now) self.old.questions (ahead self.old.cursor) (ahead self.new.cursor) result }
    {
        match self.cursor.head(self.questions, levels)? {
            Head::Truth => Ok(self.push(Node::new(Operator::Truth, 0, 0))),
            Head::Question(j) => Ok(self.push(Node::new(Operator::Question, u16::from(j), 0))),
            Head::Unary(unary) => {
                let a = self.formula(levels - 1)?;
                Ok(self.push(Node::new(Operator::from(unary), a, 0)))
            }
            Head::Binary(opening) => {
                self.cursor.open(opening)?;
                let a = self.formula(levels - 1)?;
                let operator = self.cursor.middle(opening)?;
                let b = self.formula(levels - 1)?;
                self.cursor.close(opening)?;
                Ok(self.push(Node::new(operator, a, b)))
            }
        }
    }
}

// The text as a whole: the number of nodes of its formula, which are written as far as there are places for them.
pub(crate) fn read_whole(
    text: &[u8],
    questions: usize,
    places: &mut [Node],
) -> Result<usize, Refusal>
    requires { length text.now ≤ 4096 }
    ensures { Parsed text.now questions places.old places.new result }
{
    let mut reader = Reader {
        cursor: Cursor::new(text),
        questions,
        places,
        count: 0,
    };
    reader.formula(LEVELS)?;
    reader.cursor.end()?;
    Ok(reader.count)
}
