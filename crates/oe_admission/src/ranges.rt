//! What the types of a request say: that its numbers and its names are in their ranges. All are
//! laws, and do nothing.
ghost use Rattle.std.specs.List.{All};
ghost use Rattle.oe_model.specs.Requests.{IsDistrict, IsChoice, IsPayment, IsRequestLine, IsNewOrder, IsDelivery, IsDeliveries, IsRename, IsRequest};

use oe_requests::{
    CustomerChoice, DeliveriesRequest, DeliveryRequest, NewOrderRequest, PaymentRequest,
    RenameRequest, Request, RequestLine,
};
use oe_rows::DistrictKey;

/// States that a district's numbers are in their ranges.
#[inline]
pub fn district_holds(district: &DistrictKey)
    ensures { IsDistrict district.now }
{
    let _warehouse = district.warehouse.get();
    let _district = district.district.get();
}

/// States that a customer's number or last name is in its range.
#[inline]
pub fn choice_holds(choice: &CustomerChoice)
    ensures { IsChoice choice.now }
{
    match choice {
        CustomerChoice::Number(number) => {
            let _number = number.get();
        }
        CustomerChoice::LastName(name) => {
            let _name = name.as_str();
        }
    }
}

#[inline]
fn payment_holds(payment: &PaymentRequest)
    ensures { IsPayment payment.now }
{
    district_holds(&payment.district);
    district_holds(&payment.customer_district);
    choice_holds(&payment.customer);
    let _amount = payment.amount.get();
    let _stamp = payment.stamp.seconds();
}

#[inline]
fn line_holds(line: &RequestLine)
    ensures { IsRequestLine line.now }
{
    let _supply = line.supply.get();
    let _item = line.item.get();
    let _quantity = line.quantity.get();
}

#[inline]
fn lines_hold(lines: &[RequestLine])
    ensures { All IsRequestLine lines.now }
{
    for line in lines {
        line_holds(line);
    }
}

#[inline]
fn order_holds(order: &NewOrderRequest)
    ensures { IsNewOrder order.now }
{
    district_holds(&order.district);
    let _customer = order.customer.get();
    let _stamp = order.stamp.seconds();
    lines_hold(order.lines.as_slice());
}

#[inline]
fn delivery_holds(delivery: &DeliveryRequest)
    ensures { IsDelivery delivery.now }
{
    district_holds(&delivery.district);
    let _carrier = delivery.carrier.get();
    let _stamp = delivery.stamp.seconds();
}

#[inline]
fn deliveries_hold(deliveries: &DeliveriesRequest)
    ensures { IsDeliveries deliveries.now }
{
    let _warehouse = deliveries.warehouse.warehouse.get();
    let _carrier = deliveries.carrier.get();
    let _stamp = deliveries.stamp.seconds();
}

#[inline]
fn rename_holds(rename: &RenameRequest)
    ensures { IsRename rename.now }
{
    let _warehouse = rename.customer.warehouse.get();
    let _district = rename.customer.district.get();
    let _customer = rename.customer.customer.get();
    let _last = rename.last.as_str();
    let _first = rename.first.as_str();
}

/// Says that a request is in its ranges.
#[inline]
pub fn ranges_hold(request: &Request)
    ensures { IsRequest request.now }
{
    match request {
        Request::Payment(payment) => payment_holds(payment),
        Request::NewOrder(order) => order_holds(order),
        Request::Delivery(delivery) => delivery_holds(delivery),
        Request::Deliveries(deliveries) => deliveries_hold(deliveries),
        Request::Rename(rename) => rename_holds(rename),
    }
}
