//! Items, and their stock.
//!
//! A row's columns are in their ranges by type. Nothing can fail, and nothing takes memory.
ghost use Rattle.std.specs.Prelude.{◌≡◌, ◌↔◌, ◌-◌, length, map, slice_get, Some, IsTrue};
ghost use Rattle.std.specs.List.{All};
ghost use Rattle.oe_values.specs.Text.{IsText};

use oe_values::BrandText;
use oe_values::numbers::{Count, DistrictNumber, ImageNumber, Price, StockYtd};
use oe_values::texts::Text;

/// An ITEM row without its key (clause 1.3.1).
#[derive(Drop)]
pub struct Item {
    pub image: ImageNumber,
    pub name: Text<0, 24>,
    pub price: Price,
    pub data: BrandText,
}

/// A STOCK row without its key (clause 1.3.1). `dist_info` has S_DIST_01 to S_DIST_10.
#[derive(Drop)]
pub struct Stock {
    pub quantity: Count,
    pub ytd: StockYtd,
    pub order_count: Count,
    pub remote_count: Count,
    pub data: BrandText,
    pub dist_info: [Text<24, 24>; 10],
}

/// The columns of a STOCK row that orders change: S_QUANTITY, S_YTD, S_ORDER_CNT and S_REMOTE_CNT
/// (clause 2.4.2.2).
#[derive(Clone, Copy)]
pub struct StockCounters {
    pub quantity: Count,
    pub ytd: StockYtd,
    pub order_count: Count,
    pub remote_count: Count,
}

impl Item {
    ghost use Rattle.oe_rows.specs.Item.{IsItem};

    /// Gives I_IM_ID, and I_PRICE in cents.
    pub fn figures(&self) -> (u32, u64)
        ensures ranges { IsItem self.now }
        ensures value { result ≡ (self.now.image, self.now.price) }
    {
        let _name = self.name.as_str();
        let _data = self.data.as_str();
        (self.image.get(), self.price.cents())
    }

    /// Copies the value, and takes no memory.
    pub fn copied(&self) -> Self
        ensures { result ≡ self.now }
    {
        Item {
            image: self.image,
            name: self.name.copied(),
            price: self.price,
            data: self.data.copied(),
        }
    }

    /// Tells whether two items are equal.
    pub fn is_same(&self, other: &Item) -> bool
        ensures { IsTrue result ↔ (self.now ≡ other.now) }
    {
        self.image == other.image
            && self.name == other.name
            && self.price == other.price
            && self.data == other.data
    }
}

/// Gives a copy of ten texts.
fn ten(infos: &[Text<24, 24>; 10]) -> [Text<24, 24>; 10]
    ensures { result ≡ infos.now }
{
    [
        infos[0].copied(),
        infos[1].copied(),
        infos[2].copied(),
        infos[3].copied(),
        infos[4].copied(),
        infos[5].copied(),
        infos[6].copied(),
        infos[7].copied(),
        infos[8].copied(),
        infos[9].copied(),
    ]
}

/// Gives the ten texts.
fn ten_texts(infos: &[Text<24, 24>; 10]) -> [&str; 10]
    ensures value { map (λ s. s.now) result ≡ infos.now }
    ensures count { length infos.now ≡ 10 }
    ensures ranges { All (IsText 24 24) infos.now }
{
    [
        infos[0].as_str(),
        infos[1].as_str(),
        infos[2].as_str(),
        infos[3].as_str(),
        infos[4].as_str(),
        infos[5].as_str(),
        infos[6].as_str(),
        infos[7].as_str(),
        infos[8].as_str(),
        infos[9].as_str(),
    ]
}

/// Tells whether the ten texts are equal.
fn is_same_ten(infos: &[Text<24, 24>; 10], others: &[Text<24, 24>; 10]) -> bool
    ensures { IsTrue result ↔ (infos.now ≡ others.now) }
{
    *infos == *others
}

impl Stock {
    ghost use Rattle.oe_rows.specs.Item.{IsStock};

    /// Gives S_DIST_xx of a district (clause 2.4.2.2).
    pub fn district_info(&self, district: DistrictNumber) -> &Text<24, 24>
        ensures { slice_get self.now.dist_info (district - 1) ≡ Some result.now }
    {
        &self.dist_info[district.get() as usize - 1]
    }

    /// Gives S_DIST_01 to S_DIST_10.
    pub fn dist_infos(&self) -> [&str; 10]
        ensures value { map (λ s. s.now) result ≡ self.now.dist_info }
        ensures count { length self.now.dist_info ≡ 10 }
        ensures ranges { All (IsText 24 24) self.now.dist_info }
    {
        ten_texts(&self.dist_info)
    }

    /// Gives S_QUANTITY, S_YTD, S_ORDER_CNT and S_REMOTE_CNT.
    pub fn figures(&self) -> (u32, u32, u32, u32)
        ensures ranges { IsStock self.now }
        ensures value { result
            ≡ (self.now.quantity, self.now.ytd, self.now.order_count, self.now.remote_count) }
    {
        let _infos = self.dist_infos();
        let _data = self.data.as_str();
        (
            self.quantity.get(),
            self.ytd.get(),
            self.order_count.get(),
            self.remote_count.get(),
        )
    }

    /// Copies the value, and takes no memory.
    pub fn copied(&self) -> Self
        ensures { result ≡ self.now }
    {
        Stock {
            quantity: self.quantity,
            dist_info: ten(&self.dist_info),
            ytd: self.ytd,
            order_count: self.order_count,
            remote_count: self.remote_count,
            data: self.data.copied(),
        }
    }

    /// Tells whether two stocks are equal.
    pub fn is_same(&self, other: &Stock) -> bool
        ensures { IsTrue result ↔ (self.now ≡ other.now) }
    {
        self.quantity == other.quantity
            && is_same_ten(&self.dist_info, &other.dist_info)
            && self.ytd == other.ytd
            && self.order_count == other.order_count
            && self.remote_count == other.remote_count
            && self.data == other.data
    }
}
