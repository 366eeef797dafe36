//! The laws of the machine. Each function does nothing: its contract is the law, for the proofs of
//! the table that runs in threads, each of whose atomic steps is one event.
ghost use Rattle.std.specs.Prelude.{◌≡◌, ◌≢◌, ℕ, ◌+◌, ◌*◌, ◌<◌, ◌≤◌, ◌↔◌, ◌⊎◌, ℤ, List, [], ◌∷◌, ◌++◌, IsTrue, IsFalse, Some, length, slice_index, slice_set};
ghost use Rattle.std.specs.List.{AllByRecursion, Contains};
ghost use Rattle.std.specs.Int.{IsNextPowerOfTwo};
ghost use Rattle.spd_cons_core.specs.declared.key.Entry.{Entry};
ghost use Rattle.spd_cons_core.specs.declared.key.Key.{Key};
ghost use Rattle.spd_cons_core.specs.declared.mind.Known.{Known};
ghost use Rattle.spd_cons_core.specs.declared.mind.Call.{Call};
ghost use Rattle.spd_cons_core.specs.declared.event.Event.{Event};
ghost use Rattle.spd_cons_core.specs.Views.{Machine, Seat};
ghost use Rattle.spd_cons_core.specs.Spelling.{words_of, first_bucket, IsKey};
ghost use Rattle.spd_cons_core.specs.Seats.{seat_at, with_seat, bucket, bucket_count, Names, entry_words, is_known, same_key};
ghost use Rattle.spd_cons_core.specs.Events.{call_for, can_load_bucket, after_bucket, can_claim, after_claim, can_store, can_split, after_split, split_off, load_bucket, claim, store_content, exchange_bucket, load_content, split, after_join, join, next_bucket, step, run, new_machine};
ghost use Rattle.spd_cons_core.specs.Invariants.{IsSized, IsSoundMachine, IsEvent, Keeps, Publishes, seat_of, total_over_seats, times_listed, filled, shares};

// What each kind of event keeps ------------------------------------------------------------------

/// A bucket that is loaded keeps the invariant, and what was published stays.
pub fn load_bucket_keeps()
    ensures { (c : Machine) (seat : ℕ) (key : Key) → IsSized c → IsSoundMachine c → IsKey key → Keeps c (load_bucket c seat key) }
{}

/// A claim keeps the invariant, and what was published stays.
pub fn claim_keeps()
    ensures { (c : Machine) (seat : ℕ) → IsSized c → IsSoundMachine c → Keeps c (claim c seat) }
{}

/// A word that is stored keeps the invariant, and what was published stays.
pub fn store_content_keeps()
    ensures { (c : Machine) (seat word : ℕ) → IsSized c → IsSoundMachine c → Keeps c (store_content c seat word) }
{}

/// An exchange keeps the invariant, and what was published stays.
pub fn exchange_bucket_keeps()
    ensures { (c : Machine) (seat : ℕ) → IsSized c → IsSoundMachine c → Keeps c (exchange_bucket c seat) }
{}

/// A word that is compared keeps the invariant, and what was published stays.
pub fn load_content_keeps()
    ensures { (c : Machine) (seat : ℕ) (e : Entry) (word : ℕ) → IsSized c → IsSoundMachine c → Keeps c (load_content c seat e word) }
{}

/// A split keeps the invariant, and what was published stays.
pub fn split_keeps()
    ensures { (c : Machine) (seat : ℕ) → IsSized c → IsSoundMachine c → Keeps c (split c seat) }
{}

/// A join keeps the invariant, and what was published stays.
pub fn join_keeps()
    ensures { (c : Machine) (seat other : ℕ) → IsSized c → IsSoundMachine c → Keeps c (join c seat other) }
{}

/// Every list of events keeps the invariant, and what was published stays.
pub fn run_keeps()
    ensures { (c : Machine) (events : List Event) → IsSized c → IsSoundMachine c → AllByRecursion IsEvent events → Keeps c (run c events) }
{}

/// A machine with nothing in it meets the invariant.
pub fn new_machine_is_sound()
    ensures sized { (limit most count : ℕ) → 16 ≤ limit → limit ≤ 8388608 → 1 ≤ most → most ≤ 128 → IsNextPowerOfTwo (2 * (limit + most)) count → IsSized (new_machine limit most count) }
    ensures sound { (limit most count : ℕ) → 1 ≤ most → IsSoundMachine (new_machine limit most count) }
{}

/// After every list of events from a machine with nothing in it, the invariant holds.
pub fn every_run_is_sound()
    ensures { (limit most count : ℕ) (events : List Event) → 16 ≤ limit → limit ≤ 8388608 → 1 ≤ most → most ≤ 128 → IsNextPowerOfTwo (2 * (limit + most)) count → AllByRecursion IsEvent events
        → Keeps (new_machine limit most count) (run (new_machine limit most count) events) }
{}

// What an event may write ------------------------------------------------------------------------

/// Only the seat that holds a spare stores its words.
pub fn only_own_words_are_stored()
    ensures { (c : Machine) (seat word e : ℕ) → ((own : Entry) → (seat_at c seat).spare ≡ Some own → own.0 ≢ e) → entry_words (store_content c seat word) e ≡ entry_words c e }
{}

/// An exchange that changes a bucket puts the seat's spare there, in which its key stands whole.
pub fn only_whole_keys_are_published()
    ensures { (c : Machine) (seat b : ℕ) → IsSized c → IsSoundMachine c → bucket (exchange_bucket c seat) b ≢ bucket c b → Publishes c (exchange_bucket c seat) seat b }
{}

/// An event of a seat that isn't live changes nothing.
pub fn spent_seats_rest()
    ensures { (c : Machine) (event : Event) → IsFalse (seat_at c (seat_of event)).live → step c event ≡ c }
{}

/// A search that goes on never comes back to its start, so it ends after as many buckets as there are.
pub fn searches_end()
    ensures { (c : Machine) (seat : ℕ) (call : Call) (e : Entry) → IsSized c → IsSoundMachine c → IsTrue (seat_at c seat).live → (seat_at c seat).call ≡ Some call → call.found ≡ Some e
        → next_bucket (bucket_count c) call.at ≢ first_bucket (words_of call.key) (bucket_count c) }
{}

// What the invariant says ------------------------------------------------------------------------

/// Two filled buckets name entries with different keys.
pub fn filled_buckets_differ()
    ensures { (c : Machine) (a b d e : ℕ) (key : Key) → IsSoundMachine c → Names c a d → Names c b e → a ≢ b → entry_words c d ≡ words_of key → entry_words c e ≢ words_of key }
{}

/// What two seats know agrees, whichever were split or joined before: equal entries have equal keys,
/// and equal keys have equal entries.
pub fn seats_agree()
    ensures keys { (c : Machine) (i j : ℕ) (k other : Known) → IsSoundMachine c → IsTrue (seat_at c i).live → IsTrue (seat_at c j).live → Contains (seat_at c i).knows k → Contains (seat_at c j).knows other → k.entry ≡ other.entry → k.key ≡ other.key }
    ensures entries { (c : Machine) (i j : ℕ) (k other : Known) → IsSoundMachine c → IsTrue (seat_at c i).live → IsTrue (seat_at c j).live → Contains (seat_at c i).knows k → Contains (seat_at c j).knows other → k.key ≡ other.key → k.entry ≡ other.entry }
{}

/// A joined seat knows what both knew, and nothing else.
pub fn joined_seats_know_both()
    ensures nothing_else { (seat other : Seat) (k : Known) → Contains (after_join seat other).knows k → Contains seat.knows k ⊎ Contains other.knows k }
    ensures first { (seat other : Seat) (e : Entry) → IsTrue (is_known seat.knows e) → IsTrue (is_known (after_join seat other).knows e) }
    ensures second { (seat other : Seat) (e : Entry) → IsTrue (is_known other.knows e) → IsTrue (is_known (after_join seat other).knows e) }
{}

/// An entry is known exactly where some key is known for it.
pub fn known_entries_have_keys()
    ensures known { (knows : List Known) (e : Entry) → IsTrue (is_known knows e) → (key : Key) × Contains knows (record { entry = e; key = key }) }
    ensures back { (knows : List Known) (k : Known) → Contains knows k → IsTrue (is_known knows k.entry) }
{}

/// A seat that has met the end of the claims and stands, with its splits left, for all seats has
/// published more than `limit` entries.
pub fn last_seat_is_full()
    ensures { (c : Machine) (i : ℕ) → IsSoundMachine c → IsTrue (seat_at c i).live → IsTrue (seat_at c i).ended → shares (seat_at c i) ≡ c.most → c.limit < length (seat_at c i).published }
{}

/// The number of published entries is the sum of the lengths of the seats' lists, and of the last
/// seat's list alone once all were joined into it.
pub fn lists_count_published()
    ensures all { (c : Machine) → IsSoundMachine c → filled c ≡ total_over_seats (λ seat. length seat.published) c }
    ensures last { (c : Machine) (i : ℕ) → IsSoundMachine c → IsTrue (seat_at c i).live → shares (seat_at c i) ≡ c.most → filled c ≡ length (seat_at c i).published }
{}

/// Each seat claims at most once past the end, so the claim number is bounded.
pub fn claims_are_bounded()
    ensures { (c : Machine) → IsSoundMachine c → c.claims ≤ c.limit + 2 * c.most }
{}

/// Where a bucket that is loaded for a key is empty, the key is published nowhere, and no seat knows
/// it.
pub fn empty_buckets_tell()
    ensures published { (c : Machine) (seat : ℕ) (key : Key) → IsSized c → IsSoundMachine c → IsKey key → IsTrue (can_load_bucket key (seat_at c seat)) → bucket c (call_for (bucket_count c) key (seat_at c seat)).at ≡ 0
        → (b e : ℕ) → Names c b e → entry_words c e ≢ words_of key }
    ensures known { (c : Machine) (seat : ℕ) (key : Key) → IsSized c → IsSoundMachine c → IsKey key → IsTrue (can_load_bucket key (seat_at c seat)) → bucket c (call_for (bucket_count c) key (seat_at c seat)).at ≡ 0
        → (other : ℕ) (k : Known) → IsTrue (seat_at c other).live → Contains (seat_at c other).knows k → k.key ≢ key }
{}

/// What an event makes of the machine where its seat can take it.
pub fn events_are_taken()
    ensures load_bucket { (c : Machine) (i : ℕ) (key : Key) (seat : Seat) → seat_at c i ≡ seat → IsTrue (can_load_bucket key seat)
        → load_bucket c i key ≡ with_seat c i (after_bucket (call_for (bucket_count c) key seat) (bucket c (call_for (bucket_count c) key seat).at) seat) }
    ensures claim { (c : Machine) (i : ℕ) (seat : Seat) → seat_at c i ≡ seat → IsTrue (can_claim seat)
        → claim c i ≡ record c { claims = c.claims + 1; seats = slice_set c.seats i (after_claim (c.limit + c.most) c.claims seat) } }
    ensures store_content { (c : Machine) (i word : ℕ) (seat : Seat) (call : Call) (spare : Entry) → seat_at c i ≡ seat → seat.call ≡ Some call → seat.spare ≡ Some spare → IsTrue (can_store word call seat)
        → store_content c i word ≡ record c { entries = slice_set c.entries spare.0 (slice_set (entry_words c spare.0) word (slice_index (words_of call.key) word)); seats = slice_set c.seats i (record seat { call = Some (record call { stored = call.stored + 1 }) }) } }
    ensures split { (c : Machine) (i : ℕ) (seat : Seat) → seat_at c i ≡ seat → IsTrue (can_split seat) → split c i ≡ record c { seats = slice_set c.seats i (after_split seat) ++ split_off seat ∷ [] } }
{}

/// Where a live seat has met the end of the claims, more than `limit` entries are published, whatever
/// seats there are besides.
pub fn ended_tables_are_full()
    ensures { (c : Machine) (i : ℕ) → IsSoundMachine c → IsTrue (seat_at c i).live → IsTrue (seat_at c i).ended → c.limit < filled c }
{}

/// No live seat lists an entry twice.
pub fn lists_are_distinct()
    ensures { (c : Machine) (i e : ℕ) → IsSoundMachine c → IsTrue (seat_at c i).live → times_listed e (seat_at c i) ≤ 1 }
{}

// How keys are spelled ---------------------------------------------------------------------------

/// Equal keys have equal words and different keys different ones, five each: so a comparison of the
/// words stands for one of the keys.
pub fn words_tell_keys()
    ensures five { (key : Key) → length (words_of key) ≡ 5 }
    ensures tell { (key other : Key) → IsKey key → IsKey other → words_of key ≡ words_of other → key ≡ other }
    ensures same { (key other : Key) → IsTrue (same_key key other) ↔ (key ≡ other) }
{}

/// A start bucket is one of the buckets.
pub fn start_is_a_bucket()
    ensures { (words : List ℕ) (count : ℕ) → 0 < count → first_bucket words count < count }
{}
