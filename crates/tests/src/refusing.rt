// Tests of refusals: the number of each cause and layer, as literals, and the line that tells the refusal.

use kripke::refusal::{Cause, Layer};
use std::alloc::Global;
use std::process::Abort;
use std::test::Fail;

// A cause, a layer and a place, the numbers of the cause and the layer, and the line.
type Case = (Cause, Layer, usize, (u8, u8), &'static str);

const CASES: [Case; 22] = [
    (
        Cause::ShortImage,
        Layer::FirstImage,
        7,
        (1, 1),
        "refused 1 1 7",
    ),
    (
        Cause::HeaderField,
        Layer::SecondImage,
        6,
        (2, 2),
        "refused 2 2 6",
    ),
    (
        Cause::ImageLength,
        Layer::FirstImage,
        20,
        (3, 1),
        "refused 3 1 20",
    ),
    (
        Cause::StateRecord,
        Layer::SecondImage,
        2048,
        (4, 2),
        "refused 4 2 2048",
    ),
    (
        Cause::LinkRecord,
        Layer::FirstImage,
        2056,
        (5, 1),
        "refused 5 1 2056",
    ),
    (
        Cause::LongChain,
        Layer::SecondImage,
        8,
        (6, 2),
        "refused 6 2 8",
    ),
    (Cause::RuleLimits, Layer::Rules, 0, (7, 3), "refused 7 3 0"),
    (
        Cause::UnlawfulRule,
        Layer::Rules,
        15,
        (8, 3),
        "refused 8 3 15",
    ),
    (Cause::TextLimits, Layer::Text, 0, (9, 4), "refused 9 4 0"),
    (
        Cause::Unexpected,
        Layer::Text,
        4096,
        (10, 4),
        "refused 10 4 4096",
    ),
    (
        Cause::QuestionNumber,
        Layer::Text,
        31,
        (11, 4),
        "refused 11 4 31",
    ),
    (Cause::TooDeep, Layer::Text, 64, (12, 4), "refused 12 4 64"),
    (
        Cause::ManyNodes,
        Layer::Text,
        2047,
        (13, 4),
        "refused 13 4 2047",
    ),
    (
        Cause::NodeCount,
        Layer::Evaluation,
        0,
        (14, 5),
        "refused 14 5 0",
    ),
    (
        Cause::BadNode,
        Layer::Evaluation,
        2044,
        (15, 5),
        "refused 15 5 2044",
    ),
    (
        Cause::FewWords,
        Layer::Evaluation,
        23,
        (16, 5),
        "refused 16 5 23",
    ),
    (
        Cause::ClosedComparison,
        Layer::Comparison,
        255,
        (17, 6),
        "refused 17 6 255",
    ),
    (
        Cause::StateNumber,
        Layer::Comparison,
        512,
        (18, 6),
        "refused 18 6 512",
    ),
    (
        Cause::OpenComparison,
        Layer::Comparison,
        0,
        (19, 6),
        "refused 19 6 0",
    ),
    (
        Cause::NotDifferent,
        Layer::Comparison,
        254,
        (20, 6),
        "refused 20 6 254",
    ),
    (
        Cause::FewPlaces,
        Layer::Comparison,
        12,
        (21, 6),
        "refused 21 6 12",
    ),
    (
        Cause::ReportSize,
        Layer::Report,
        0,
        (22, 7),
        "refused 22 7 0",
    ),
];

fn told(rt: &impl Abort, heap: Global, cases: &[Case]) -> Result<(), Fail> {
    for (cause, layer, place, numbers, line) in cases {
        let refusal = layer.refusal(*cause, *place);
        assert_eq!(rt; refusal.number(), numbers.0);
        assert_eq!(rt; refusal.layer_number(), numbers.1);
        let told = format!(in heap; "{refusal}")?;
        assert_eq!(rt; told.as_str(), *line);
    }
    Ok(())
}

#[test]
fn numbers_and_lines(rt: HostRuntime) -> Result<(), Fail> {
    told(&rt, rt.alloc(), &CASES)
}
