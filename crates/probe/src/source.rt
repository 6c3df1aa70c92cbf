use crate::failure::Failure;
use crate::fields::Fields;
use image::slot::Slot;
use image::stored::StoredModel;
use kripke::refusal::Error;
use labels::coded::Coded;
use labels::kind::Kind;
use labels::reading::Reading;
use labels::signal::SignalWord;
use rules::model::RuleModel;
use rules::rule::Rule;
use std::alloc::Global;

// What a model is loaded from.
#[derive(Drop)]
pub(crate) enum Source<'a> {
    Image(Kind, &'a [u8]),
    Rules {
        bits: usize,
        initial: usize,
        rules: Vec<Rule>,
    },
}

// A model that is loaded.
#[derive(Drop)]
pub(crate) enum Held {
    SignalWords(StoredModel<SignalWord>),
    Readings(StoredModel<Reading>),
    Rules(RuleModel),
}

fn stored<L: Coded>(heap: Global, image: &[u8], slot: Slot) -> Result<StoredModel<L>, Error> {
    let mut model = StoredModel::new(heap)?;
    model.load(image, slot)?;
    Ok(model)
}

impl<'a> Source<'a> {
    // Its number, its length and its bytes.
    pub(crate) fn read(heap: Global, fields: &mut Fields<'a>) -> Result<Source<'a>, Failure> {
        let number = fields.byte()?;
        let bytes = fields.counted()?;
        let mut fields = Fields(bytes);
        match number {
            1 => Ok(Source::Image(Kind::SignalWords, bytes)),
            2 => Ok(Source::Image(Kind::Readings, bytes)),
            3 => Ok(Source::Rules {
                bits: usize::from(fields.number()?),
                initial: usize::from(fields.number()?),
                rules: fields.records::<4, Rule>(heap)?,
            }),
            _ => Err(Failure::Bad),
        }
    }

    pub(crate) fn load(&self, heap: Global, slot: Slot) -> Result<Held, Error> {
        match self {
            Source::Image(Kind::SignalWords, image) => {
                Ok(Held::SignalWords(stored(heap, image, slot)?))
            }
            Source::Image(Kind::Readings, image) => Ok(Held::Readings(stored(heap, image, slot)?)),
            Source::Rules {
                bits,
                initial,
                rules,
            } => {
                let mut model = RuleModel::new();
                model.load(*bits, *initial, rules.as_slice())?;
                Ok(Held::Rules(model))
            }
        }
    }
}
