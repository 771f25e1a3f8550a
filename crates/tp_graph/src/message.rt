//! Messages, which carry a value to a task at another node, and parcels, which are received messages.
ghost use Rattle.std.specs.Prelude.{◌≡◌, ◌<◌, Some};
ghost use Rattle.tp_graph.specs.{Carried.{Carried, IsFeed}, Values.{value_of, IsInput}};

use crate::feed::Feed;
use crate::graph::Graph;
use crate::routed::Routed;
use crate::value::Value;
use std::marker::Model;
use tp_base::{Generation, MessageId, NodeId};

/// A value in flight to a task at another node.
#[derive(Drop)]
pub struct Message<G: Graph> {
    graph: G,
    number: MessageId,
    generation: Generation,
    from: NodeId,
    to: NodeId,
    feed: Feed,
    value: Value,
}

impl<G: Graph> Model for Message<G> {
    ghost use Rattle.tp_graph.specs.Carried.{Carried, IsCarried};

    ghost Value = { Carried G };

    ghost view = { λ m. record {
      graph = m.graph;
      number = m.number;
      generation = m.generation;
      from = m.from;
      to = m.to;
      feed = m.feed;
      value = m.value;
    } };

    ghost invariant = { λ m. IsCarried (G.meaning m.graph) m.number.0 m.generation.0 m.feed m.value };
}

impl<G: Graph> Message<G> {
    /// Returns a message with a value of the graph, sent in a generation of its pool. The value has to be that of the
    /// feed's producer, which has to have this feed. The numbers of the message and of the generation have to be below
    /// 1,048,576. It allocates nothing.
    pub fn new(
        graph: G,
        number: MessageId,
        generation: Generation,
        from: NodeId,
        to: NodeId,
        feed: Feed,
        value: Value,
    ) -> Self
        requires few { number.0 < 1048576 }
        requires few_generations { generation.0 < 1048576 }
        requires right { value_of (G.meaning graph) feed.producer.0 ≡ Some value }
        requires fed { IsFeed (G.meaning graph) feed }
        ensures { result
            ≡ record { graph = graph; number = number; generation = generation; from = from; to = to; feed = feed; value = value } }
    {
        Message {
            graph,
            number,
            generation,
            from,
            to,
            feed,
            value,
        }
    }

    /// Returns the graph that defines the value.
    pub fn graph(&self) -> G
        ensures { result ≡ self.now.graph }
    {
        self.graph
    }

    /// Returns the message's number among the messages of its generation.
    pub fn number(&self) -> MessageId
        ensures same { result ≡ self.now.number }
        ensures few { self.now.number.0 < 1048576 }
    {
        self.number
    }

    /// Returns the generation of the pool in which it was sent.
    pub fn generation(&self) -> Generation
        ensures same { result ≡ self.now.generation }
        ensures few { self.now.generation.0 < 1048576 }
    {
        self.generation
    }

    /// Returns the node that sent it.
    pub fn from(&self) -> NodeId
        ensures { result ≡ self.now.from }
    {
        self.from
    }

    /// Returns the node that receives it.
    pub fn to(&self) -> NodeId
        ensures { result ≡ self.now.to }
    {
        self.to
    }

    /// Returns the feed: the producer of the value, and the task and slot that it goes to.
    pub fn feed(&self) -> Feed
        ensures same { result ≡ self.now.feed }
        ensures right { IsFeed (G.meaning self.now.graph) result }
        ensures input { IsInput (G.meaning self.now.graph) result.target.0 result.slot self.now.value }
    {
        self.feed
    }

    /// Returns the value, which is the one that the graph defines for the feed's producer.
    pub fn value(&self) -> &Value
        ensures same { result.now ≡ self.now.value }
        ensures right { value_of (G.meaning self.now.graph) self.now.feed.producer.0 ≡ Some result.now }
    {
        &self.value
    }

    /// Returns the message as a received one. It allocates nothing.
    pub fn receive(self) -> Parcel<G>
        ensures { result ≡ self }
    {
        Parcel { message: self }
    }
}

impl<G: Graph> Routed for Message<G> {
    ghost sender = { λ m. m.from.0 };

    ghost receiver = { λ m. m.to.0 };

    ghost message = { λ m. m.number.0 };

    fn from(&self) -> NodeId {
        self.from
    }

    fn to(&self) -> NodeId {
        self.to
    }

    fn number(&self) -> MessageId {
        self.number
    }
}

/// A received message.
#[derive(Drop)]
pub struct Parcel<G: Graph> {
    message: Message<G>,
}

impl<G: Graph> Model for Parcel<G> {
    ghost use Rattle.tp_graph.specs.Carried.{Carried};

    ghost Value = { Carried G };

    ghost view = { λ p. p.message };
}

impl<G: Graph> Parcel<G> {
    /// Returns a received message made of its parts. It requires what [`Message::new`] requires, and allocates nothing.
    pub fn new(
        graph: G,
        number: MessageId,
        generation: Generation,
        from: NodeId,
        to: NodeId,
        feed: Feed,
        value: Value,
    ) -> Self
        requires few { number.0 < 1048576 }
        requires few_generations { generation.0 < 1048576 }
        requires right { value_of (G.meaning graph) feed.producer.0 ≡ Some value }
        requires fed { IsFeed (G.meaning graph) feed }
        ensures { result
            ≡ record { graph = graph; number = number; generation = generation; from = from; to = to; feed = feed; value = value } }
    {
        Parcel {
            message: Message::new(graph, number, generation, from, to, feed, value),
        }
    }

    /// Returns the graph that defines the value.
    pub fn graph(&self) -> G
        ensures { result ≡ self.now.graph }
    {
        self.message.graph()
    }

    /// Returns the number of the message.
    pub fn number(&self) -> MessageId
        ensures same { result ≡ self.now.number }
        ensures few { self.now.number.0 < 1048576 }
    {
        self.message.number()
    }

    /// Returns the generation of the pool in which the message was sent.
    pub fn generation(&self) -> Generation
        ensures same { result ≡ self.now.generation }
        ensures few { self.now.generation.0 < 1048576 }
    {
        self.message.generation()
    }

    /// Returns the node that sent it.
    pub fn from(&self) -> NodeId
        ensures { result ≡ self.now.from }
    {
        self.message.from()
    }

    /// Returns the node that received it.
    pub fn to(&self) -> NodeId
        ensures { result ≡ self.now.to }
    {
        self.message.to()
    }

    /// Returns the feed: the producer of the value, and the task and slot that it goes to.
    pub fn feed(&self) -> Feed
        ensures same { result ≡ self.now.feed }
        ensures right { IsFeed (G.meaning self.now.graph) result }
        ensures input { IsInput (G.meaning self.now.graph) result.target.0 result.slot self.now.value }
    {
        self.message.feed()
    }

    /// Returns the value, which is the one that the graph defines for the feed's producer.
    pub fn value(&self) -> &Value
        ensures same { result.now ≡ self.now.value }
        ensures right { value_of (G.meaning self.now.graph) self.now.feed.producer.0 ≡ Some result.now }
    {
        self.message.value()
    }

    /// Returns the value, moved out, which is the one that the graph defines for the feed's producer.
    pub fn into_value(self) -> Value
        ensures same { result ≡ self.value }
        ensures right { value_of (G.meaning self.graph) self.feed.producer.0 ≡ Some result }
    {
        let Message {
            graph: _,
            number: _,
            generation: _,
            from: _,
            to: _,
            feed: _,
            value,
        } = self.message;
        value
    }
}
