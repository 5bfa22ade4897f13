//! Pins that follow the changes of a history are those of the history.

ghost use Rattle.std.specs.Prelude.{ℕ, List, ◌∷◌};
ghost use Rattle.mdb_events.specs.declared.fact.Fact.{Fact};
ghost use Rattle.mdb_log.specs.declared.options.PoolOptions.{PoolOptions};
ghost use Rattle.mdb_log.specs.declared.reply.Reply.{Reply};
ghost use Rattle.mdb_log.specs.declared.step.Act.{Act};
ghost use Rattle.mdb_log.specs.History.{Item, did, made, open_pool};
ghost use Rattle.mdb_tallies.specs.declared.tables.Tables.{Tables};
ghost use Rattle.mdb_tallies.specs.Kept.{Stands};
ghost use Rattle.mdb_tallies.specs.Reading.{of_act, of_fact};
ghost use Rattle.mdb_pins.specs.declared.story.PinStory.{PinStory};
ghost use Rattle.mdb_pins.specs.Following.{PinsFollow};
ghost use Rattle.mdb_pins.specs.Standing.{PinsStand};

/// Pins that are those of a history, and follow what one more fact or accepted step says, are those of the history with it.
pub fn pins_follow_histories()
    ensures facts { (o : PoolOptions) (m : ℕ) (fact : Fact) (h : List Item) (t : Tables) (old new : PinStory) → Stands o h t → PinsStand h old → PinsFollow (of_fact fact) t old new → PinsStand (made m fact ∷ h) new }
    ensures steps { (o : PoolOptions) (m : ℕ) (act : Act) (reply : Reply) (h : List Item) (t : Tables) (old new : PinStory) → Stands o h t → PinsStand h old → PinsFollow (of_act (open_pool h) act) t old new → PinsStand (did (record { moment = m; act = act }) reply ∷ h) new }
{}
