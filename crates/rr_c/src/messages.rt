//! Headers and results, as a C program receives them.
ghost use Rattle.std.specs.Prelude.{◌≡◌};
ghost use Rattle.rr_c.specs.Answers.{header_of};

use rr_bytes::MessageHeader;

/// `rr_header_t`.
#[repr(C)]
#[derive(Clone, Copy)]
pub struct Header {
    pub port_id: u64,
    pub request_id: u64,
    pub number_of_elements: u64,
    pub node_id: u64,
    pub is_response: bool,
}

/// `rr_user_header_t`.
#[repr(C)]
#[derive(Clone, Copy)]
pub struct UserHeader {
    pub bytes: [u8; 16],
}

/// Returns a message's header as a C program receives it.
pub(crate) fn header_of(header: MessageHeader) -> Header
    ensures { result ≡ header_of header }
{
    match header {
        MessageHeader::Request(header) => Header {
            port_id: header.client_id().0,
            request_id: header.request_id(),
            number_of_elements: header.number_of_elements(),
            node_id: header.node_id().0,
            is_response: false,
        },
        MessageHeader::Response(header) => Header {
            port_id: header.server_id().0,
            request_id: header.request_id(),
            number_of_elements: header.number_of_elements(),
            node_id: header.node_id().0,
            is_response: true,
        },
    }
}
