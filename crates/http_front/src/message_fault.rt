/// Why a message is refused.
#[derive(Clone, Copy, Debug)]
pub(crate) enum MessageFault {
    BadMessage,
    HeadTooLarge,
    BodyTooLarge,
}
