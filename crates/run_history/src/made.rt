//! What an entry makes: deliveries to the consumers of its part's stream, or emissions where there are none.
ghost use Rattle.std.specs.Prelude.{◌≡◌, ◌+◌, ◌++◌, ◌<◌, ◌≤◌, ◌^◌, length, map, IfOk, OnOk};
ghost use Rattle.std.specs.List.{enumerate_from};
ghost use Rattle.topology.specs.Shapes.{parts_of, consumers_of};
ghost use Rattle.run_history.specs.Made.{deliveries_made, emissions_made, produced, row_to, sends_of, delivery_at, deliveries_to, emission_at};

use mw_types::{
    Delivery, DeliveryList, Duplicate, Emission, EmissionList, NoMemory, Production, Record,
    RecordId, RowName, Seq,
};
use std::alloc::Global;
use topology::{Subscription, Topology, extract};

/// What an entry made.
#[derive(Drop)]
pub struct Made {
    /// The deliveries, in the order of their ids.
    pub deliveries: DeliveryList,
    /// The emissions, in the order of their ids, where nothing reads the part's stream.
    pub emissions: EmissionList,
}

/// What productions of a part become under a commit number: one delivery of each to each consumer, or
/// one emission of each where there is no consumer. A caller writes it into the history's next entry.
pub fn make(
    alloc: Global,
    topology: &Topology,
    part: u32,
    productions: &[Production],
    late: bool,
    commit: u64,
) -> Result<Made, NoMemory>
    requires part { part < parts_of topology.now }
    requires few { length productions.now ≤ 8 }
    requires commit { commit < 2 ^ 32 }

    ensures deliveries { IfOk result (λ made.
        made.deliveries ≡ deliveries_made topology.now part productions.now late commit) }
    ensures emissions { IfOk result (λ made.
        made.emissions ≡ emissions_made topology.now part productions.now late commit) }
{
    let consumers = consumers(topology, part);
    let deliveries = deliveries(alloc, consumers, productions, late, commit)?;
    let mut emissions = Seq::new(alloc);
    if consumers.is_empty() {
        emit(alloc, &mut emissions, part, productions, late, commit)?;
    }
    Ok(Made {
        deliveries,
        emissions,
    })
}

/// An injected record, as what its injector produces.
pub fn production(alloc: Global, item: &Record) -> Result<Production, NoMemory>
    ensures produced { IfOk result (λ production. production ≡ record {
      key = item.now.key;
      stamp = item.now.stamp;
      value = item.now.value;
    }) }
{
    Ok(Production {
        key: item.key.copy(alloc)?,
        stamp: item.stamp,
        value: item.value,
    })
}

// The subscriptions to the stream of a part.
pub(crate) fn consumers(topology: &Topology, part: u32) -> &[Subscription]
    requires { part < parts_of topology.now }
    ensures subscribed { result.now ≡ consumers_of topology.now part }
    ensures few { length result.now ≤ 64 }
{
    let parts = topology.parts();
    prove!(part < parts);
    topology.consumers(part)
}

// The deliveries of productions to consumers.
fn deliveries(
    alloc: Global,
    consumers: &[Subscription],
    productions: &[Production],
    late: bool,
    commit: u64,
) -> Result<DeliveryList, NoMemory>
    requires consumers { length consumers.now ≤ 64 }
    requires few { length productions.now ≤ 8 }
    ensures { IfOk result (λ made.
        made ≡ deliveries_to consumers.now commit (map (produced late) productions.now)) }
{
    let mut deliveries = Seq::new(alloc);
    for production in productions {
        send(alloc, &mut deliveries, consumers, production, late, commit)?;
    }
    Ok(deliveries)
}

// Appends a delivery of one production to each consumer.
fn send(
    alloc: Global,
    deliveries: &mut DeliveryList,
    consumers: &[Subscription],
    production: &Production,
    late: bool,
    commit: u64,
) -> Result<(), NoMemory>
    requires { length deliveries.old + length consumers.now < 2 ^ 32 }
    ensures { let sends = sends_of consumers.now (produced late production.now) in
        OnOk result (deliveries.new ≡ deliveries.old
        ++ map (delivery_at commit) (enumerate_from (length deliveries.old) sends)) }
{
    for consumer in consumers {
        let index = deliveries.len() as u32;
        let delivery = delivery(
            alloc,
            RecordId { commit, index },
            consumer,
            production,
            late,
        )?;
        deliveries.push(delivery)?;
    }
    Ok(())
}

// The delivery of a production to a consumer, by the key that it extracts.
fn delivery(
    alloc: Global,
    id: RecordId,
    consumer: &Subscription,
    production: &Production,
    late: bool,
) -> Result<Delivery, NoMemory>
    ensures { let item = produced late production.now in
        IfOk result (λ made.
        made ≡ delivery_at id.commit (id.index, (row_to item consumer.now, item))) }
{
    let to = RowName {
        part: consumer.to,
        key: extract(alloc, consumer.by, &production.key)?,
    };
    let item = record(alloc, production, late)?;
    Ok(Delivery { id, to, item })
}

// A production as a record.
fn record(alloc: Global, production: &Production, late: bool) -> Result<Record, NoMemory>
    ensures { IfOk result (λ item. item ≡ produced late production.now) }
{
    Ok(Record {
        key: production.key.copy(alloc)?,
        stamp: production.stamp,
        value: production.value,
        late,
    })
}

// Appends an emission of each production of a part.
pub(crate) fn emit(
    alloc: Global,
    emissions: &mut EmissionList,
    part: u32,
    productions: &[Production],
    late: bool,
    commit: u64,
) -> Result<(), NoMemory>
    requires { length productions.now ≤ 8 }
    ensures { let items = map (produced late) productions.now in
        OnOk result (emissions.new ≡ emissions.old
        ++ map (emission_at part commit) (enumerate_from 0 items)) }
{
    for (index, production) in productions.iter().enumerate() {
        let item = record(alloc, production, late)?;
        let id = RecordId {
            commit,
            index: index as u32,
        };
        emissions.push(Emission { id, part, item })?;
    }
    Ok(())
}
