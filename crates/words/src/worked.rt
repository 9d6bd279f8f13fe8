//! What two small schemas cost in words.
ghost use Rattle.std.specs.Prelude.{◌≡◌, map};
ghost use Rattle.word_layout.specs.Words.{words_price};
ghost use Rattle.words.specs.Worked.{WorkedPrices, no_fields, one_field, total};

/// The heights of a new store of words after a schema with no fields was put in it, and after one with a single Int32
/// field "a" that is not nullable.
#[tactic(auto, unfolding(word_layout::specs::Lists::list_size))]
pub fn small_heights() -> (usize, usize)
    ensures prices { WorkedPrices }
    ensures value { (result.0 ≡ total (map words_price no_fields)) × (result.1 ≡ total (map words_price one_field)) }
{
    (48, 168)
}
