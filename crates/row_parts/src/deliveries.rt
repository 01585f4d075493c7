//! The deliveries that a row waits for: adding one and settling one.
ghost use Rattle.std.specs.Prelude.{◌≡◌, ◌≤◌, ◌++◌, ◌∷◌, [], All, OnOk, OnErr, take};
ghost use Rattle.std.specs.List.{list_any};
ghost use Rattle.std.specs.List.Sorted.{IsStrictlySortedBy};
ghost use Rattle.std.specs.Option.{is_some};
ghost use Rattle.std.specs.declared.cmp.Ordering.TheVariants.{Less};
ghost use Rattle.row_parts.specs.Contents.{ArePending, IsId, delivery_cmp, found_delivery, same_id, without_delivery};
ghost use Rattle.mw_types.specs.Bounds.{IsKey};

use crate::places::{delivery_place, room, room_for};
use mw_types::{Delivery, DeliveryList, Key, MAX_STAMP, NoMemory, RecordId};
use std::alloc::Global;
use std::mem::replace;

// Tells of a key what each key is: at most 256 bytes of UTF-8.
fn is_key(key: &Key)
    ensures { IsKey key.now }
{
    let _ = key.text().as_bytes();
}

// Tells of both keys of a delivery what each key is.
fn has_keys(delivery: &Delivery)
    ensures to { IsKey delivery.now.to.key }
    ensures key { IsKey delivery.now.item.key }
{
    is_key(&delivery.to.key);
    is_key(&delivery.item.key);
}

/// Whether a delivery of this id is among these, which stand in order.
pub fn has_delivery(deliveries: &[Delivery], id: RecordId) -> bool
    requires { IsStrictlySortedBy delivery_cmp deliveries.now }
    ensures { result ≡ is_some (found_delivery id deliveries.now) }
{
    delivery_place(deliveries, id).is_ok()
}

/// Appends a delivery whose id is above all of these. Refuses where memory ran out, or
/// 2^32 - 1 are there, and leaves the deliveries as they were.
pub fn add_delivery(deliveries: &mut DeliveryList, delivery: Delivery) -> Result<(), NoMemory>
    requires deliveries { ArePending deliveries.old }
    requires id { IsId delivery.id }
    requires stamp { delivery.item.stamp ≤ MAX_STAMP }
    requires above { All (λ d. delivery_cmp d delivery ≡ Less) deliveries.old }
    ensures ok { OnOk result (deliveries.new ≡ deliveries.old ++ delivery ∷ []) }
    ensures err { OnErr result (deliveries.new ≡ deliveries.old) }
    ensures deliveries { ArePending deliveries.new }
{
    has_keys(&delivery);
    room(deliveries.len())?;
    deliveries.push(delivery)?;
    Ok(())
}

/// Appends deliveries whose ids ascend from above all of these. Refuses where memory ran out, or
/// 2^32 would be there, and leaves the deliveries as they were.
pub fn add_deliveries(
    alloc: Global,
    deliveries: &mut DeliveryList,
    more: DeliveryList,
) -> Result<(), NoMemory>
    requires deliveries { ArePending deliveries.old }
    requires ids { All (λ d. IsId d.id) more }
    requires stamps { All (λ d. d.item.stamp ≤ MAX_STAMP) more }
    requires ascending { IsStrictlySortedBy delivery_cmp (deliveries.old ++ more) }
    ensures ok { OnOk result (deliveries.new ≡ deliveries.old ++ more) }
    ensures err { OnErr result (deliveries.new ≡ deliveries.old) }
    ensures deliveries { ArePending deliveries.new }
{
    have_keys(more.as_slice());
    if let Err(NoMemory) = room_for(deliveries.len(), more.len()) {
        drop(more);
        return Err(NoMemory);
    }
    join(alloc, deliveries, more)?;
    Ok(())
}

// Tells of each key of deliveries what each key is.
fn have_keys(deliveries: &[Delivery])
    ensures { All (λ d. IsKey d.to.key × IsKey d.item.key) deliveries.now }
{
    for delivery in deliveries {
        has_keys(delivery);
    }
}

// Appends the deliveries of another list, or none of them where memory ran out.
fn join(alloc: Global, deliveries: &mut DeliveryList, more: DeliveryList) -> Result<(), NoMemory>
    ensures ok { OnOk result (deliveries.new ≡ deliveries.old ++ more) }
    ensures err { OnErr result (deliveries.new ≡ deliveries.old) }
{
    let mut own = replace(deliveries, DeliveryList::new(alloc)).into_vec();
    let mut rest = more.into_vec();
    let done = own.append(&mut rest);
    *deliveries = DeliveryList::from_vec(own);
    drop(rest);
    Ok(done?)
}

/// Keeps the first so many of these.
pub fn keep_first(alloc: Global, deliveries: &mut DeliveryList, count: usize)
    ensures { deliveries.new ≡ take count deliveries.old }
{
    let mut own = replace(deliveries, DeliveryList::new(alloc)).into_vec();
    own.truncate(count);
    *deliveries = DeliveryList::from_vec(own);
}

/// Takes the delivery with this id away, and tells whether it was there.
pub fn take_delivery(deliveries: &mut DeliveryList, id: RecordId) -> bool
    requires { ArePending deliveries.old }
    ensures found { result ≡ list_any (λ d. same_id d.id id) deliveries.old }
    ensures rest { deliveries.new ≡ without_delivery id deliveries.old }
    ensures deliveries { ArePending deliveries.new }
{
    match delivery_place(deliveries.as_slice(), id) {
        Ok(at) => {
            deliveries.remove(at);
            true
        }
        Err(_) => false,
    }
}
