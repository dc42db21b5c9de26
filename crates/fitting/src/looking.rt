// Records of the stored image. The keys of values rise as those of records do: each lookup goes on near the last one.
ghost use Rattle.std.specs.Prelude.{◌≡◌, ℕ, ◌+◌, ◌-◌, ◌≤◌, List, length};
ghost use Rattle.lists.specs.Numbers.{Bytes};
ghost use Rattle.image.specs.Readable.{head_in};
ghost use Rattle.fitting.specs.Records.{records, record_of, seek_from, Cursor};

use image::Head;
use std::marker::Model;

// A store that was judged once, how many records it holds, none where it is not readable, and the record near which the last lookup ended.
#[derive(Drop)]
pub struct Image<'a> {
    pub store: &'a [u8],
    count: usize,
    near: usize,
}

impl<'a> Model for Image<'a> {
    ghost Value = { List ℕ };

    ghost view = { λ m. m.store.now };

    ghost invariant = { λ m. (m.count ≡ records m.store.now) × (m.near ≤ m.count) × Bytes m.store.now };
}

impl<'a> Image<'a> {
    pub fn judged(store: &'a [u8]) -> Self
        ensures { result ≡ store.now }
    {
        let count = if image::judge_image(store) {
            lists::number(store, 0, 2) as usize
        } else {
            0
        };
        Image {
            store,
            count,
            near: 0,
        }
    }

    // The head of the record at place a.
    pub fn head(&self, a: usize) -> Head
        requires { a + 8 ≤ length self.now }
        ensures { result ≡ head_in self.now a }
    {
        image::head_in(self.store, a)
    }

    // From where to seek: from record `near` on, unless the one before it is not below the key.
    fn start_from(&self, key: u64) -> usize
        ensures { Cursor self.now (records self.now) result key }
    {
        if self.near == 0 {
            return 0;
        }
        if self.head(2 + 8 * (self.near - 1)).key < key {
            return self.near;
        }
        0
    }

    // The first record, from record k on, whose key is not below.
    fn seek(&self, k: usize, key: u64) -> usize
        requires { k ≤ records self.now }
        ensures { result ≡ seek_from self.now (records self.now - k) k key }
    {
        let n = self.count;
        for j in k..n {
            if key <= self.head(2 + 8 * j).key {
                return j;
            }
        }
        n
    }

    // The place of the record that has the key.
    pub fn look_up(&mut self, key: u64) -> Option<usize>
        ensures found { result ≡ record_of self.old key }
        ensures image { self.new ≡ self.old }
    {
        let r = self.seek(self.start_from(key), key);
        self.near = r;
        if r < self.count {
            let a = 2 + 8 * r;
            if self.head(a).key == key {
                return Some(a);
            }
        }
        None
    }
}
