// The clients' records as they lie in a pool that a program in another language keeps: two arrays of numbers, since an array of structs cannot be lent
// to such a program's calls (SPECIFICATION 14.2). `Clients` are lent to be read, `ClientsMut` to be written, too. Internal.
#![tactic(auto)]

ghost use Rattle.std.specs.Prelude.{◌≡◌, ◌<◌, replicate, set};
ghost use Rattle.pool.specs.Limits.{max_clients};
ghost use Rattle.pool.specs.State.{resting};
ghost use Rattle.client_arrays.specs.Arrays.{client_from, clients_from, bytes_with, words_with};
ghost use Rattle.client_arrays.specs.Loans.{clients_in, clients_of, SameClients};

use actions::moves;
use pool::{CLIENTS, Client};

/// How many numbers of a client are bytes.
pub const CLIENT_BYTES: usize = 8;

/// How many are words of 32 bits.
pub const CLIENT_WORDS: usize = 2;

pub const ALL_BYTES: usize = CLIENTS * CLIENT_BYTES;

pub const ALL_WORDS: usize = CLIENTS * CLIENT_WORDS;

/// The clients, lent to be read. Numbers at fixed places, and no list of records: the C interface, `struct foqheran_pool`.
#[derive(Clone, Copy)]
pub struct Clients<'a> {
    pub bytes: &'a [u8; ALL_BYTES],
    pub words: &'a [u32; ALL_WORDS],
}

impl Clients<'_> {
    /// Client c.
    #[tactic(auto, unfolding(crate::specs::Arrays::client_from))]
    pub fn get(&self, c: usize) -> Client
        requires { c < max_clients }
        ensures { result ≡ client_from self.now.bytes.now self.now.words.now c }
    {
        let i = CLIENT_BYTES * c;
        let j = CLIENT_WORDS * c;
        Client {
            stage: self.bytes[i],
            page: self.words[j],
            own: self.bytes[i + 1],
            found: self.bytes[i + 2],
            victim: self.bytes[i + 3],
            seen: self.bytes[i + 4],
            place: self.bytes[i + 5],
            start: self.words[j + 1],
            busy: self.bytes[i + 6],
            held: self.bytes[i + 7],
        }
    }

    /// All of them, for what looks at every client.
    pub fn all(&self) -> [Client; CLIENTS]
        ensures { result ≡ clients_in self.now }
    {
        // `array::from_fn(|c| self.get(c))` was tried, and the proof did not close: its calls' states are not known to be one.
        let mut clients = [moves::resting(0); CLIENTS];
        for c in 0..CLIENTS {
            clients[c] = self.get(c);
        }
        clients
    }
}

/// A record, laid over client c's numbers.
#[tactic(auto, unfolding(crate::specs::Arrays::bytes_with, crate::specs::Arrays::words_with, memory::specs::Memory::copied))]
fn lay(bytes: &mut [u8; ALL_BYTES], words: &mut [u32; ALL_WORDS], c: usize, client: Client)
    requires { c < max_clients }
    ensures bytes { bytes.new ≡ bytes_with bytes.old c client }
    ensures words { words.new ≡ words_with words.old c client }
    ensures clients { clients_from bytes.new words.new ≡ set (clients_from bytes.old words.old) c client }
{
    let i = CLIENT_BYTES * c;
    let j = CLIENT_WORDS * c;
    bytes[i] = client.stage;
    bytes[i + 1] = client.own;
    bytes[i + 2] = client.found;
    bytes[i + 3] = client.victim;
    bytes[i + 4] = client.seen;
    bytes[i + 5] = client.place;
    bytes[i + 6] = client.busy;
    bytes[i + 7] = client.held;
    words[j] = client.page;
    words[j + 1] = client.start;
}

/// The clients, lent to be written.
#[derive(Drop)]
pub struct ClientsMut<'a> {
    pub bytes: &'a mut [u8; ALL_BYTES],
    pub words: &'a mut [u32; ALL_WORDS],
}

impl ClientsMut<'_> {
    /// The same, to be read.
    pub fn clients(&self) -> Clients<'_>
        ensures bytes { result.bytes.now ≡ self.now.bytes.now }
        ensures words { result.words.now ≡ self.now.words.now }
    {
        Clients {
            bytes: self.bytes,
            words: self.words,
        }
    }

    /// Client c's record, put back.
    pub fn put(&mut self, c: usize, client: Client)
        requires { c < max_clients }
        ensures loans { SameClients self.old self.new }
        ensures bytes { self.new.bytes.now ≡ bytes_with self.old.bytes.now c client }
        ensures words { self.new.words.now ≡ words_with self.old.words.now c client }
        ensures clients { clients_of self.new ≡ set (clients_of self.old) c client }
    {
        lay(self.bytes, self.words, c, client);
    }

    /// Every client at rest without grants, as a setup leaves them.
    pub fn rest_all(&mut self)
        ensures loans { SameClients self.old self.new }
        ensures clients { clients_of self.new ≡ replicate max_clients (resting 0) }
    {
        let resting = moves::resting(0);
        // By number: the records lie in two arrays of numbers (the C interface), which have no iterator over records.
        for c in 0..CLIENTS {
            self.put(c, resting);
        }
    }
}

/// Client c, for crate `listing`.
pub fn client_at<'a>(bytes: &'a [u8; ALL_BYTES], words: &'a [u32; ALL_WORDS], c: usize) -> Client
    requires { c < max_clients }
    ensures { result ≡ client_from bytes.now words.now c }
{
    Clients { bytes, words }.get(c)
}
