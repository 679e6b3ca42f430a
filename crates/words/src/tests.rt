// Words on examples.
use super::fault::WordFault;
use super::place::Place;
use super::word::{Word, number_word, place_of};

#[test]
fn numbers_at_the_ends_of_the_range(rt: HostRuntime) {
    assert_eq!(rt; number_word(536_870_911), Ok(2_147_483_645));
    assert_eq!(rt; number_word(-536_870_912), Ok(2_147_483_649));
    assert_eq!(rt; number_word(536_870_912), Err(WordFault::NumberOutOfRange));
    assert_eq!(rt; number_word(-536_870_913), Err(WordFault::NumberOutOfRange));
    assert_eq!(rt; Word::parse(4_294_967_293), Some(Word::Number(-1)));
}

#[test]
fn multiples_of_four_are_no_words(rt: HostRuntime) {
    assert_eq!(rt; Word::parse(0), Some(Word::Nothing));
    assert_eq!(rt; Word::parse(4), None);
    assert_eq!(rt; Word::parse(4_294_967_292), None);
    assert_eq!(rt; place_of(15), Some(Place::Old(3)));
    assert_eq!(rt; place_of(2), Some(Place::Young(0)));
    assert_eq!(rt; Word::Slot(1_073_741_824).encode(), None);
}
