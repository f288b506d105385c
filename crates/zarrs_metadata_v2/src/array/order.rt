//! How the elements of a chunk lie in it.

ghost use Rattle.std.specs.Prelude.{◌≡◌};
ghost use Rattle.zarrs_metadata_values.specs.Reading.{Reads};
ghost use Rattle.zarrs_metadata_v2.specs.ArrayMetadataV2.{array_order_of, order_text};

use zarrs_metadata_values::MetadataError;

/// How the elements of a chunk lie in it.
#[derive(Clone, Copy, Debug, PartialEq, Eq)]
pub enum ArrayMetadataV2Order {
    /// Row-major: the last dimension varies fastest.
    C,
    /// Column-major: the first dimension varies fastest.
    F,
}

// The order that a text names.
#[tactic(auto, unfolding(crate::specs::ArrayMetadataV2::array_order_of))]
pub(crate) fn order_of(text: &str) -> Result<ArrayMetadataV2Order, MetadataError>
    ensures { Reads (λ o. o) result (array_order_of text.now) }
{
    match text {
        "C" => Ok(ArrayMetadataV2Order::C),
        "F" => Ok(ArrayMetadataV2Order::F),
        _ => Err(MetadataError::InvalidMetadata),
    }
}

// The text that names an order.
pub(crate) fn order_text(order: ArrayMetadataV2Order) -> &'static str
    ensures { result.now ≡ order_text order }
{
    match order {
        ArrayMetadataV2Order::C => "C",
        ArrayMetadataV2Order::F => "F",
    }
}
