ghost use Rattle.std.specs.Prelude.{◌≡◌, ◌<◌};
ghost use Rattle.image_depot.specs.Image.{place_count};
ghost use Rattle.image_depot.specs.Key.{image_of};
ghost use Rattle.image_depot.specs.Reply.{frame_of, reply_bytes};

use crate::key::ImageKey;
use std::marker::Model;

/// A page of an image on its way to a clone: the key of the image, and the reply that carries the page.
/// Contracts see in it the key and the place of the page, and its bytes are the frame of that page.
pub struct Parcel {
    key: ImageKey,
    page: u32,
    bytes: Vec<u8>,
}

// By hand, since what a derive gives is proved in each crate above, for each type within.
impl Drop for Parcel {
    fn drop(self) {
        let Parcel {
            key: _,
            page: _,
            bytes: _,
        } = self;
    }
}

impl Model for Parcel {
    ghost use Rattle.image_depot.specs.Reply.{IsParcel, Reply};

    ghost Value = { Reply };

    ghost view = { λ p. record { key = p.key; page = p.page } };

    ghost invariant = { λ p. IsParcel p.key p.page p.bytes.items };
}

impl Parcel {
    /// The key of the image that the page is of. It takes no memory.
    #[inline]
    pub fn key(&self) -> &ImageKey
        ensures { result.now ≡ self.now.key }
    {
        &self.key
    }

    /// The bytes of the reply: the frame of the page. It takes no memory.
    #[inline]
    pub fn bytes(&self) -> &[u8]
        ensures value { result.now ≡ reply_bytes self.now }
        ensures there { self.now.page < place_count (image_of self.now.key) }
    {
        &self.bytes
    }

    /// The place of the page in its image: those of RAM come first, and then those of the disk. It takes no memory.
    #[inline]
    pub fn page(&self) -> u32
        ensures { result ≡ self.now.page }
    {
        self.page
    }

    pub(crate) fn of_reply(key: ImageKey, page: u32, bytes: Vec<u8>) -> Parcel
        requires there { page < place_count (image_of key) }
        requires is { bytes.items ≡ frame_of key page }
        ensures { result ≡ record { key = key; page = page } }
    {
        Parcel { key, page, bytes }
    }
}
