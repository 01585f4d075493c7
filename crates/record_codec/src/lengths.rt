//! How many bytes deliveries have in a row.
ghost use Rattle.std.specs.Prelude.{◌≡◌, ◌+◌, All, IfSome, length};
ghost use Rattle.row_parts.specs.Spelling.{DeliveryFits, delivery_spelling};
ghost use Rattle.record_codec.specs.Edits.{deliveries_spelling};

use mw_types::Delivery;

// How many bytes a delivery has besides those of both its keys.
const DELIVERY_BYTES: usize = 37;

/// How many bytes there are once those of deliveries stand behind so many, or none where that is no number.
pub fn bytes_behind(so_far: usize, deliveries: &[Delivery]) -> Option<usize>
    ensures { let more = length (deliveries_spelling deliveries.now) in
        IfSome result (λ bytes. bytes ≡ so_far + more) }
{
    let mut bytes = so_far;
    for delivery in deliveries {
        bytes = bytes.checked_add(bytes_of(delivery))?;
    }
    Some(bytes)
}

// How many bytes a delivery has.
fn bytes_of(delivery: &Delivery) -> usize
    ensures { result ≡ length (delivery_spelling delivery.now) }
{
    DELIVERY_BYTES + delivery.to.key.text().len() + delivery.item.key.text().len()
}

// Tells of deliveries that their numbers fit their bytes.
pub(crate) fn have_spellings(deliveries: &[Delivery])
    ensures { All DeliveryFits deliveries.now }
{
    for delivery in deliveries {
        has_spelling(delivery);
    }
}

// Tells of a delivery that its numbers fit their bytes.
fn has_spelling(delivery: &Delivery)
    ensures { DeliveryFits delivery.now }
{
    let _part = delivery.to.part;
    let _value = delivery.item.value;
}
