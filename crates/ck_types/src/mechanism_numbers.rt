/// CKM_SHA256, the digest SHA-256 (PKCS #11 Current Mechanisms 3.0, SHA-256).
pub const SHA256: u64 = 0x250;

/// CKM_SHA256_HMAC, the HMAC with SHA-256 (PKCS #11 Current Mechanisms 3.0, SHA-256).
pub const SHA256_HMAC: u64 = 0x251;

/// CKM_SHA256_HMAC_GENERAL, the first bytes of the HMAC with SHA-256 (PKCS #11 Current Mechanisms
/// 3.0, SHA-256). Their number is the parameter (CK_MAC_GENERAL_PARAMS).
pub const SHA256_HMAC_GENERAL: u64 = 0x252;

/// CKM_SHA224, the digest SHA-224 (PKCS #11 Current Mechanisms 3.0, SHA-224).
pub const SHA224: u64 = 0x255;

/// CKM_SHA224_HMAC, the HMAC with SHA-224 (PKCS #11 Current Mechanisms 3.0, SHA-224).
pub const SHA224_HMAC: u64 = 0x256;

/// CKM_SHA224_HMAC_GENERAL, the first bytes of the HMAC with SHA-224 (PKCS #11 Current Mechanisms
/// 3.0, SHA-224). Their number is the parameter (CK_MAC_GENERAL_PARAMS).
pub const SHA224_HMAC_GENERAL: u64 = 0x257;

/// CKM_SHA384, the digest SHA-384 (PKCS #11 Current Mechanisms 3.0, SHA-384).
pub const SHA384: u64 = 0x260;

/// CKM_SHA384_HMAC, the HMAC with SHA-384 (PKCS #11 Current Mechanisms 3.0, SHA-384).
pub const SHA384_HMAC: u64 = 0x261;

/// CKM_SHA384_HMAC_GENERAL, the first bytes of the HMAC with SHA-384 (PKCS #11 Current Mechanisms
/// 3.0, SHA-384). Their number is the parameter (CK_MAC_GENERAL_PARAMS).
pub const SHA384_HMAC_GENERAL: u64 = 0x262;

/// CKM_SHA512, the digest SHA-512 (PKCS #11 Current Mechanisms 3.0, SHA-512).
pub const SHA512: u64 = 0x270;

/// CKM_SHA512_HMAC, the HMAC with SHA-512 (PKCS #11 Current Mechanisms 3.0, SHA-512).
pub const SHA512_HMAC: u64 = 0x271;

/// CKM_SHA512_HMAC_GENERAL, the first bytes of the HMAC with SHA-512 (PKCS #11 Current Mechanisms
/// 3.0, SHA-512). Their number is the parameter (CK_MAC_GENERAL_PARAMS).
pub const SHA512_HMAC_GENERAL: u64 = 0x272;

/// CKM_GENERIC_SECRET_KEY_GEN, which generates a generic secret key (PKCS #11 Current Mechanisms
/// 3.0, Generic secret key).
pub const GENERIC_SECRET_KEY_GEN: u64 = 0x350;
