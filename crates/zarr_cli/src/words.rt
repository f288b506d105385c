//! The words of the command line.

ghost use Rattle.std.specs.Prelude.{◌≡◌, true, false, List, ℕ, ◌∷◌, option_map, option_and_then};
ghost use Rattle.zarr_cli.specs.Words.{is_known, with_word, with_words, settings_of, reading_settings};
ghost use Rattle.zarr_cli.specs.Status.{words_of, settings_view};

use zarr_cli_runs::CodecOptions;
use zarrs_plugin::parse_number;

/// What the words of a command line set.
#[derive(Clone, Copy)]
pub struct Words {
    /// Whether the final keys follow the replies.
    pub dump: bool,
    /// The options of the session.
    pub options: CodecOptions,
    /// The number that the run is made from, in place of an input.
    pub make: Option<u64>,
}

// What the words so far set, and whether the next one has to be a number.
#[derive(Clone, Copy)]
struct SoFar {
    settings: Words,
    pending: bool,
}

// The settings after one more word that takes no number, if it is one.
fn after_word(word: &str, settings: Words) -> Option<Words>
    ensures { option_map settings_view result ≡ with_word word.now (settings_view settings) }
{
    match word {
        "--dump" => Some(Words {
            dump: true,
            options: settings.options,
            make: settings.make,
        }),
        "--store-empty-chunks" => Some(Words {
            dump: settings.dump,
            options: settings.options.with_store_empty_chunks(true),
            make: settings.make,
        }),
        "--no-checksums" => Some(Words {
            dump: settings.dump,
            options: settings.options.with_validate_checksums(false),
            make: settings.make,
        }),
        _ => None,
    }
}

// The settings with the number of a word, if it is one.
fn after_number(word: &str, settings: Words) -> Option<SoFar>
    ensures { (words : List (List ℕ)) →
        with_words is_known true (word.now ∷ words) (settings_view settings)
        ≡ option_and_then (λ next. with_words is_known next.pending words
        (settings_view next.settings)) result }
{
    match parse_number(word) {
        Some(number) => Some(SoFar {
            settings: Words {
                dump: settings.dump,
                options: settings.options,
                make: Some(number),
            },
            pending: false,
        }),
        None => None,
    }
}

// The settings after a word that is no number.
fn after_name(word: &str, settings: Words) -> Option<SoFar>
    ensures { (words : List (List ℕ)) →
        with_words is_known false (word.now ∷ words) (settings_view settings)
        ≡ option_and_then (λ next. with_words is_known next.pending words
        (settings_view next.settings)) result }
{
    if word == "--make" {
        return Some(SoFar {
            settings,
            pending: true,
        });
    }
    match after_word(word, settings) {
        Some(settings) => Some(SoFar {
            settings,
            pending: false,
        }),
        None => None,
    }
}

// What one more word makes of it, if it is known.
fn after_next(word: &str, so_far: SoFar) -> Option<SoFar>
    ensures { (words : List (List ℕ)) →
        with_words is_known so_far.pending (word.now ∷ words) (settings_view so_far.settings)
        ≡ option_and_then (λ next. with_words is_known next.pending words
        (settings_view next.settings)) result }
{
    if so_far.pending {
        after_number(word, so_far.settings)
    } else {
        after_name(word, so_far.settings)
    }
}

/// What the words of a command line set, if each is known and `--make` has its number behind it. They may come in any
/// order and number; the last `--make` counts.
pub fn read_words(words: &[String]) -> Option<Words>
    ensures { option_map settings_view result ≡ settings_of (words_of words.now) }
{
    let mut so_far = SoFar {
        settings: Words {
            dump: false,
            options: CodecOptions::default(),
            make: None,
        },
        pending: false,
    };
    for word in words {
        so_far = after_next(word.as_str(), so_far)?;
    }
    if so_far.pending {
        None
    } else {
        Some(so_far.settings)
    }
}

/// The same of a program that reads its input whatever the words say: `--make` is no word of it.
pub fn read_input_words(words: &[String]) -> Option<Words>
    ensures { option_map settings_view result ≡ reading_settings (words_of words.now) }
{
    let settings = read_words(words)?;
    match settings.make {
        Some(_) => None,
        None => Some(settings),
    }
}
