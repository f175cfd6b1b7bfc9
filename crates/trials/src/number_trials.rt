// The numbers of the table.
use refusal::Refusal;

const NUMBERS: [(Refusal, u8); 20] = [
    (Refusal::TextTooLong, 1),
    (Refusal::ByteNotPermitted, 2),
    (Refusal::OverLimit, 3),
    (Refusal::TokenNotPermitted, 4),
    (Refusal::TooDeep, 5),
    (Refusal::JoinMixes, 6),
    (Refusal::NameTaken, 7),
    (Refusal::NameUnknown, 8),
    (Refusal::WrongTermCount, 9),
    (Refusal::WrongNumber, 10),
    (Refusal::TooMany, 11),
    (Refusal::FieldsDiffer, 12),
    (Refusal::ListTooShort, 13),
    (Refusal::TraceUnfit, 14),
    (Refusal::NotFinished, 15),
    (Refusal::NotAMark, 16),
    (Refusal::BadSeed, 18),
    (Refusal::BufferTooShort, 19),
    (Refusal::Outside, 20),
    (Refusal::PairsFull, 21),
];

#[test]
fn each_refusal_has_its_number(rt: HostRuntime) {
    for (refusal, number) in &NUMBERS {
        assert!(rt; refusal.number() == *number);
    }
}
