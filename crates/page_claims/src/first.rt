//! What a claim is answered.
use crate::claims::Claims;
use std::marker::Model;
use std::snapshot::Snapshot;

/// The token of a page of an image that was claimed for the first time. Only [`Claims::claim`] makes one.
#[derive(Drop)]
pub struct First {
    of: Snapshot<Claims>,
    image: u32,
    page: u32,
}

impl Model for First {
    ghost use Rattle.page_claims.specs.Values.{PageName};

    ghost Value = { PageName };

    ghost view = { λ f. record { claims = f.of.value; image = f.image; page = f.page } };
}

/// What a claim is answered.
#[derive(Drop)]
pub enum Claimed {
    /// Nobody had claimed the page.
    First(First),
    /// Somebody had claimed it.
    Repeat,
    /// The claims have no such image, or its images no such page.
    Outside,
}

impl First {
    ghost use Rattle.std.specs.Prelude.{◌≡◌};

    /// The page that was claimed.
    pub(crate) fn new(claims: &Claims, image: u32, page: u32) -> First
        ensures { result ≡ record { claims = claims.now; image = image; page = page } }
    {
        First {
            of: Snapshot::of(claims),
            image,
            page,
        }
    }

    /// The number of the image.
    pub fn image(&self) -> u32
        ensures { result ≡ self.now.image }
    {
        self.image
    }

    /// The page's place in the image: pages of RAM first, then pages of the disk.
    pub fn page(&self) -> u32
        ensures { result ≡ self.now.page }
    {
        self.page
    }
}
