//! Messages whose receiver says when it is done with them.
//!
//! A message is packaged with a ticket. Whoever handles it makes an acknowledgment under that ticket, and the
//! receiver that was packaged with it takes the value of an acknowledgment under its own ticket alone.
ghost use Rattle.std.specs.Prelude.{◌≡◌};
ghost use Rattle.mdb_base.specs.Acknowledgment.{message as message_of, sender as sender_of, sender_ticket, receiver_ticket, ticket as ticket_of, value as value_of, resolution};

use std::marker::PhantomData;

/// A message, and what acknowledges it.
#[derive(Debug, Drop)]
pub struct AcknowledgedMessage<M, R> {
    message: M,
    sender: AcknowledgmentSender<R>,
}

/// Acknowledges one message, under its ticket.
#[derive(Debug, Drop)]
pub struct AcknowledgmentSender<R> {
    ticket: u64,
    value: PhantomData<R>,
}

/// Waits for the acknowledgment of one message, under its ticket.
#[derive(Debug, Drop)]
pub struct AcknowledgmentReceiver<R> {
    ticket: u64,
    value: PhantomData<R>,
}

/// The value with which a message was acknowledged, under its ticket.
#[derive(Debug, Drop)]
pub struct Acknowledgment<R> {
    ticket: u64,
    value: R,
}

impl<M, R> AcknowledgedMessage<M, R> {
    /// A message and the receiver of its acknowledgment, both under the ticket. No memory is taken.
    pub fn package(
        ticket: u64,
        message: M,
    ) -> (AcknowledgedMessage<M, R>, AcknowledgmentReceiver<R>)
        ensures message { message_of result.0 ≡ message }
        ensures sender { sender_ticket (sender_of result.0) ≡ ticket }
        ensures receiver { receiver_ticket result.1 ≡ ticket }
    {
        let sender = AcknowledgmentSender {
            ticket,
            value: PhantomData,
        };
        let receiver = AcknowledgmentReceiver {
            ticket,
            value: PhantomData,
        };
        (AcknowledgedMessage { message, sender }, receiver)
    }

    /// The message.
    pub fn message(&self) -> &M
        ensures { result.now ≡ message_of self.now }
    {
        &self.message
    }

    /// The message and what acknowledges it later.
    pub fn into_parts(self) -> (M, AcknowledgmentSender<R>)
        ensures message { result.0 ≡ message_of self }
        ensures sender { result.1 ≡ sender_of self }
    {
        (self.message, self.sender)
    }
}

impl<M: Drop, R> AcknowledgedMessage<M, R> {
    /// Acknowledges the message, and lets it go.
    pub fn acknowledge(self, value: R) -> Acknowledgment<R>
        ensures ticket { ticket_of result ≡ sender_ticket (sender_of self) }
        ensures value { value_of result ≡ value }
    {
        self.sender.acknowledge(value)
    }
}

impl<R> AcknowledgmentSender<R> {
    /// Acknowledges the message that this was packaged with.
    pub fn acknowledge(self, value: R) -> Acknowledgment<R>
        ensures ticket { ticket_of result ≡ sender_ticket self }
        ensures value { value_of result ≡ value }
    {
        Acknowledgment {
            ticket: self.ticket,
            value,
        }
    }
}

impl<R> AcknowledgmentReceiver<R> {
    /// The value of the acknowledgment. Where it is under another ticket, both come back.
    pub fn resolve(
        self,
        acknowledgment: Acknowledgment<R>,
    ) -> Result<R, (AcknowledgmentReceiver<R>, Acknowledgment<R>)>
        ensures { result ≡ resolution self acknowledgment }
    {
        if self.ticket == acknowledgment.ticket {
            Ok(acknowledgment.value)
        } else {
            Err((self, acknowledgment))
        }
    }
}
