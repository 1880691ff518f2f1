//! The one table of orders.

/// The table of orders, which stands here alone. A row has an order's name in [`Order`](crate::Order), its word in scripts
/// and reports, and what it carries. Then come whether it is for threads alone, whether it needs an application that has
/// joined, and the method that makes its own change.
///
/// It hands its arguments and the rows to a macro that the caller names, which expands them:
///
/// ```
/// macro_rules! ignored {
///     ($field:ident) => { _ };
/// }
///
/// macro_rules! words {
///     (($order:ident) $({ $name:ident, $word:literal, [$($field:ident)?], $who:ident, $joined:ident, $change:ident })*) => {
///         match $order { $(Order::$name $((ignored!($field)))? => $word,)* }
///     };
/// }
///
/// fn word_of(order: &Order) -> &'static str {
///     order_cases!(words!(order))
/// }
/// ```
#[macro_export]
macro_rules! order_cases {
    ($callback:ident! ($($args:tt)*)) => {
        $callback! {
            ($($args)*)
            { Join, "join", [], needs_thread, needs_nothing, join }
            { Ask, "ask", [request], needs_thread, needs_joined, ask }
            { Cap, "cap", [cap], needs_thread, needs_joined, cap }
            { Block, "block", [], needs_thread, needs_joined, block }
            { Retire, "retire", [], needs_thread, needs_joined, retire }
            { Leave, "leave", [], needs_thread, needs_joined, leave }
            { Status, "status", [], needs_thread, needs_joined, status }
            { Tick, "tick", [moment], needs_nothing, needs_nothing, tick }
        }
    };
}
